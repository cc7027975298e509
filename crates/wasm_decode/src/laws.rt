// The laws, as calls that do nothing.
ghost use Rattle.std.specs.Prelude.{◌↔◌, ◌≡◌, ℕ, List, Some};
ghost use Rattle.wasm_decode.specs.Grammar.{SpellsModule};
ghost use Rattle.wasm_decode.specs.Sections.{module_of_bytes};
ghost use Rattle.wasm_types.specs.Modules.{Module as Shown};

/// Bytes spell at most one module.
pub fn one_module()
    ensures { (bytes : List ℕ) (a b : Shown) → SpellsModule bytes a → SpellsModule bytes b → a ≡ b }
{
    fri_bytes::laws::exact_readers();
}

/// The function that gives the module gives the one that the bytes spell, and no other.
pub fn module_is_spelled()
    ensures { (bytes : List ℕ) (m : Shown) → (module_of_bytes bytes ≡ Some m) ↔ SpellsModule bytes m }
{
    fri_bytes::laws::exact_readers();
}
