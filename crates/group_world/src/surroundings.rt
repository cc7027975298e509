// What is around one process, apart from its datagrams.
ghost use Rattle.std.specs.Prelude.{◌≡◌, ◌↔◌, ℕ, ◌++◌, ◌≤◌, length, true, false, IsTrue, OnOk, OnErr};
ghost use Rattle.lib_calls.specs.Entry.{entry_of};
ghost use Rattle.lib_calls.specs.Traffic.{drawn as drawn_of};
ghost use Rattle.guest_signals.specs.Signals.{is_pending_in, most_signal, with_pending};
ghost use Rattle.group_world.specs.World.{after_entry, no_surroundings};

use guest_signals::{MOST_SIGNAL, Pending};
use lib_calls::{EntryView, drawn};
use std::alloc::{AllocError, Global};
use std::marker::Model;

/// Random bytes, the wall time as the bits of a signed number, the pending signals, and whether the
/// process was killed. The random bytes that were taken stay in front of those that are left.
#[derive(Drop)]
pub(crate) struct Surroundings {
    bytes: Vec<u8>,
    used: usize,
    pub(crate) time: u64,
    pending: Pending,
    pub(crate) killed: bool,
}

impl Model for Surroundings {
    ghost use Rattle.std.specs.Prelude.{drop, length, ◌≤◌};
    ghost use Rattle.group_world.specs.World.{Surroundings as SurroundingsOf};

    ghost Value = { SurroundingsOf };

    ghost view = { λ p. record { pool = drop p.used p.bytes.items; time = p.time; pending = p.pending; killed = p.killed } };

    ghost invariant = { λ p. p.used ≤ length p.bytes.items };
}

impl Surroundings {
    pub(crate) fn new(alloc: Global) -> Surroundings
        ensures { result ≡ no_surroundings }
    {
        Surroundings {
            bytes: Vec::new(alloc),
            used: 0,
            time: 0,
            pending: Pending::new(),
            killed: false,
        }
    }

    /// The random bytes that are left.
    pub(crate) fn pool(&self) -> &[u8]
        ensures { result.now ≡ self.now.pool }
    {
        &self.bytes[self.used..]
    }

    /// Adds random bytes after those that are left.
    pub(crate) fn add(&mut self, bytes: &[u8]) -> Result<(), AllocError>
        ensures ok { OnOk result (self.new ≡ record self.old { pool = self.old.pool ++ bytes.now }) }
        ensures err { OnErr result (self.new ≡ self.old) }
        ensures memory { OnErr result (1 ≤ length bytes.now) }
    {
        self.bytes.extend_from_slice(bytes)?;
        Ok(())
    }

    /// Makes the signal pending.
    pub(crate) fn raise(&mut self, signal: u8)
        requires first { 1 ≤ signal }
        requires last { signal ≤ most_signal }
        ensures { self.new ≡ record self.old { pending = with_pending self.old.pending signal true } }
    {
        self.pending.raise(signal);
    }

    /// Whether the signal is pending.
    pub(crate) fn is_pending(&self, signal: u8) -> bool
        requires first { 1 ≤ signal }
        requires last { signal ≤ most_signal }
        ensures { result ≡ is_pending_in self.now.pending signal }
    {
        self.pending.has(signal)
    }

    /// Whether no signal is pending.
    pub(crate) fn has_no_signal(&self) -> bool
        ensures { IsTrue result ↔ ((signal : ℕ) → is_pending_in self.now.pending signal ≡ false) }
    {
        self.pending.is_empty()
    }

    /// An event takes random bytes, and delivers a signal or none.
    #[inline(always)]
    pub(crate) fn settle(&mut self, entry: &EntryView<'_>)
        requires { drawn_of (entry_of entry.now) ≤ length self.old.pool }
        ensures { self.new ≡ after_entry self.old (entry_of entry.now) }
    {
        self.used += drawn(entry);
        if (1..=MOST_SIGNAL).contains(&entry.signal) {
            self.pending.clear(entry.signal);
        }
    }
}
