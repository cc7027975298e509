// The sends of a group.
ghost use Rattle.std.specs.Prelude.{◌≡◌, None, OnOk, OnErr, IfOk, IfErr};
ghost use Rattle.std.specs.FinMap as map;
ghost use Rattle.group_order.specs.inside.SortedSends.{AreInOrder, IsAt, IsGapFor};

use std::alloc::{AllocError, Global};
use std::cmp::Ordering;
use std::marker::Model;

/// The sends of a group's processes. Contracts see a map from the number and the clock of a sender to the
/// receiver.
pub struct SendIndex {
    // A sender's number and clock, and the receiver, in order.
    sends: Vec<((u32, u64), u32)>,
}

// By hand, so that it is proved here, and not in each crate that owns one.
impl Drop for SendIndex {
    fn drop(self) {
        let Self { sends: _sends } = self;
    }
}

impl Model for SendIndex {
    ghost use Rattle.std.specs.Coded.{coded_ℕ, coded×};
    ghost use Rattle.std.specs.FinMap as map;
    ghost use Rattle.group_order.specs.Sends.{SendReceivers};
    ghost use Rattle.group_order.specs.inside.SortedSends.{AreInOrder};

    ghost Value = { SendReceivers };

    ghost coded = { map.code (coded× coded_ℕ coded_ℕ) coded_ℕ };

    ghost view = { λ index. map.from_entries index.sends.items };

    ghost invariant = { λ index. AreInOrder index.sends.items };
}

impl SendIndex {
    /// No sends.
    pub fn new(alloc: Global) -> SendIndex
        ensures { result ≡ map.empty }
    {
        SendIndex {
            sends: Vec::new(alloc),
        }
    }

    /// Adds the send that process p made at this clock, to the process `to`.
    pub fn add(&mut self, p: u32, clock: u64, to: u32) -> Result<(), AllocError>
        requires { map.get self.old (p, clock) ≡ None }
        ensures ok { OnOk result (self.new ≡ map.insert self.old (p, clock) to) }
        ensures err { OnErr result (self.new ≡ self.old) }
    {
        match search(&self.sends, (p, clock)) {
            Ok(_) => unreachable!(),
            Err(place) => Ok(self.sends.insert(place, ((p, clock), to))?),
        }
    }

    /// The receiver of the send that process p made at this clock. None comes exactly where none was added.
    pub fn find_send(&self, p: u32, clock: u64) -> Option<u32>
        ensures { result ≡ map.get self.now (p, clock) }
    {
        match search(&self.sends, (p, clock)) {
            Ok(place) => Some(self.sends[place].1),
            Err(_) => None,
        }
    }
}

// Where the send of this sender is, or where it would go.
fn search(sends: &[((u32, u64), u32)], sender: (u32, u64)) -> Result<usize, usize>
    requires { AreInOrder sends.now }
    ensures found { IfOk result (IsAt sends.now sender) }
    ensures absent { IfErr result (IsGapFor sends.now sender) }
{
    let Some(last) = sends.last() else {
        return Err(0);
    };
    // Most often the sends come in order too, so that each goes to the end.
    match last.0.cmp(&sender) {
        Ordering::Less => Err(sends.len()),
        _ => sends.binary_search_by_key(&sender, |send| send.0),
    }
}
