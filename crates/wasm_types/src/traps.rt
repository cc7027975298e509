// Why a thread is stopped.

/// Why a thread is stopped. Apart from the traps of WebAssembly 1.0 these are `Exhausted`, where the
/// room for operands and frames is used up, and `Spent`, where the budget of steps is.
#[derive(Clone, Copy, PartialEq, Eq, Drop)]
pub enum Trap {
    Unreachable = 1,
    ZeroDivisor,
    Overflow,
    MemoryRange,
    TableRange,
    EmptyElement,
    TypeDiffers,
    Exhausted,
    Spent,
}

impl Trap {
    ghost use Rattle.std.specs.Prelude.{◌≡◌};
    ghost use Rattle.wasm_types.specs.Traps.{trap_number};

    /// The trap's number in reports and logs.
    pub fn number(self) -> u8
        ensures { result ≡ trap_number self }
    {
        self as u8
    }
}
