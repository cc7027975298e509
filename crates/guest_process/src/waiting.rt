// A thread at its pending call.
ghost use Rattle.std.specs.Prelude.{◌≡◌};
ghost use Rattle.guest_process.specs.Start.{waits_at_begin};

use coop_threads::CopyOut;
use lib_calls::{Call, Kind};
use std::alloc::AllocError;
use wasm_step::Strand;

/// A thread that waits for the answer to its pending call.
#[derive(Drop)]
pub(crate) struct Waiting<'m> {
    pub(crate) call: Call,
    pub(crate) strand: Strand<'m>,
}

/// A thread that is at `begin`.
pub(crate) fn beginning(strand: Strand<'_>) -> Waiting<'_>
    ensures { result ≡ waits_at_begin strand.entry }
{
    let call = Call {
        kind: Kind::Begin,
        a0: 0,
        a1: 0,
        a2: 0,
    };
    Waiting { call, strand }
}

impl<'m> CopyOut for Waiting<'m> {
    fn copy_out(&self) -> Result<Waiting<'m>, AllocError> {
        Ok(Waiting {
            call: self.call,
            strand: self.strand.copy()?,
        })
    }
}
