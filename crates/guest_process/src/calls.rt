// The calls of the library that a process makes.
ghost use Rattle.std.specs.Prelude.{◌≡◌};
ghost use Rattle.guest_process.specs.GoesOn.{argument, call_of_site};
ghost use Rattle.guest_process.specs.Kinds.{ends_process};

use lib_calls::{Call, Kind};
use wasm_step::CallSite;

// An argument that the kind has, and 0 where it lacks it.
fn argument(kind: Kind, n: u8, bits: u64) -> u64
    ensures { result ≡ argument kind n bits }
{
    if n < kind.argument_count() { bits } else { 0 }
}

/// The call of this kind that was made there.
pub(crate) fn call_of_site(kind: Kind, site: CallSite) -> Call
    ensures { result ≡ call_of_site kind site }
{
    Call {
        kind,
        a0: argument(kind, 0, site.a0),
        a1: argument(kind, 1, site.a1),
        a2: argument(kind, 2, site.a2),
    }
}

/// Whether a call of this kind ends the process.
pub fn ends_process(kind: Kind) -> bool
    ensures { result ≡ ends_process kind }
{
    match kind {
        Kind::Exit => true,
        _ => false,
    }
}
