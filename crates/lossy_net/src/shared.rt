// Bytes with several owners.
ghost use Rattle.std.specs.Prelude.{◌≡◌, ◌++◌, IfOk};

use smallvec::SmallVec;
use std::alloc::{AllocError, Global};
use std::marker::Model;
use std::rc::Rc;

// A tag and as many bytes again need no memory of their own.
const FEW_BYTES: usize = 32;

/// Bytes that are kept once, however many datagrams wait that have them.
#[derive(Drop)]
pub(crate) struct Shared {
    bytes: Rc<SmallVec<u8, FEW_BYTES>>,
}

impl Model for Shared {
    ghost use Rattle.std.specs.Prelude.{ℕ, List};

    ghost Value = { List ℕ };

    ghost view = { λ s. s.bytes.value.items };
}

impl Shared {
    /// A copy of the bytes, whose one owner this is.
    pub(crate) fn new(alloc: Global, bytes: &[u8]) -> Result<Shared, AllocError>
        ensures { IfOk result (λ s. s ≡ bytes.now) }
    {
        let bytes = SmallVec::from_slice(alloc, bytes)?;
        let bytes = Rc::new(alloc, bytes)?;
        Ok(Shared { bytes })
    }

    /// The same of two pieces, one after the other.
    pub(crate) fn joined(alloc: Global, front: &[u8], back: &[u8]) -> Result<Shared, AllocError>
        ensures { IfOk result (λ s. s ≡ front.now ++ back.now) }
    {
        let mut bytes = SmallVec::with_capacity(alloc, front.len() + back.len())?;
        bytes.extend_from_slice(front)?;
        bytes.extend_from_slice(back)?;
        let bytes = Rc::new(alloc, bytes)?;
        Ok(Shared { bytes })
    }

    /// A further owner of the same bytes.
    pub(crate) fn share(&self) -> Result<Shared, AllocError>
        ensures { IfOk result (λ s. s ≡ self.now) }
    {
        let bytes = self.bytes.clone()?;
        Ok(Shared { bytes })
    }

    /// All the bytes.
    pub(crate) fn as_slice(&self) -> &[u8]
        ensures { result.now ≡ self.now }
    {
        self.bytes.as_slice()
    }
}
