// The law of the refusals, as a call that does nothing.
ghost use Rattle.wasm_validate.specs.Fault.{ExactFault};

/// The function that says why a module is refused names the first refusal that holds, and none exactly
/// where the module is valid.
pub fn exact_fault()
    ensures { ExactFault }
{}
