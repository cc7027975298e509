// Calls of the library.
ghost use Rattle.std.specs.Prelude.{◌≡◌, slice_get};
ghost use Rattle.wasm_stack.specs.Call.{site_of};
ghost use Rattle.wasm_values.specs.Values.{bits_of};

use wasm_types::Slot;
use wasm_values::bits;

/// A call of the library: the index of the imported function, and the bits of its arguments in their
/// order, with 0 where it has fewer than three.
#[derive(Clone, Copy, Drop)]
pub struct CallSite {
    pub func: u32,
    pub a0: u64,
    pub a1: u64,
    pub a2: u64,
}

/// The call of this function with these arguments.
pub(crate) fn site(func: u32, arguments: &[Slot]) -> CallSite
    ensures { result ≡ site_of func arguments.now }
{
    CallSite {
        func,
        a0: bits_at(arguments, 0),
        a1: bits_at(arguments, 1),
        a2: bits_at(arguments, 2),
    }
}

// The bits of an argument, and 0 where there is none.
fn bits_at(arguments: &[Slot], k: usize) -> u64
    ensures { result ≡ bits_of (slice_get arguments.now k) }
{
    match arguments.get(k) {
        Some(argument) => bits(Some(argument.value())),
        None => 0,
    }
}
