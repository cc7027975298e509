// A law of modules, as a call that does nothing.
ghost use Rattle.guest_module.specs.Laws.{TypesAgree};

/// Where each import is a function of the library, a function's type by the indices that typing has is its type by its
/// own index.
pub fn types_agree()
    ensures { TypesAgree }
{}
