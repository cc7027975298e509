// What the accepted events of a group say of datagrams.
ghost use Rattle.std.specs.Prelude.{◌≡◌, ◌+◌, ◌<◌, ◌^◌, OnOk};
ghost use Rattle.lib_calls.specs.Entry.{entry_of};
ghost use Rattle.group_state.specs.inside.Tallying.{HasTallyRoom, IsNewSend, counts_of, is_matched_in, nothing_tallied, unmatched_receipts_in, with_accepted, with_receipt, with_send};

use group_order::SendIndex;
use lamport_tag::Tag;
use lib_calls::{EntryView, is_sent, is_taken};
use std::alloc::{AllocError, Global};
use std::marker::Model;

/// How many events sent a datagram into the group; how many took one with a tag, and for how many of these
/// the send is not among the events; and how many took one without a tag.
#[derive(Clone, Copy)]
pub struct GroupCounts {
    pub sends: u64,
    pub receives: u64,
    pub unmatched: u64,
    pub untagged: u64,
}

/// A process took a datagram with this tag.
#[derive(Clone, Copy)]
pub struct Receipt {
    pub process: u32,
    pub tag: Tag,
}

/// Counts the datagrams of accepted events. The events of a group's logs may come in any order.
pub struct Tally {
    count: u32,
    sends: u64,
    untagged: u64,
    sent: SendIndex,
    taken: Vec<Receipt>,
}

// By hand, so that it is proved here, and not in each crate that owns one.
impl Drop for Tally {
    fn drop(self) {
        let Self {
            count: _count,
            sends: _sends,
            untagged: _untagged,
            sent: _sent,
            taken: _taken,
        } = self;
    }
}

impl Model for Tally {
    ghost use Rattle.group_state.specs.inside.Tallying.{GroupTallying, tallying_code};

    ghost Value = { GroupTallying };

    ghost coded = { tallying_code };

    ghost view = { λ t. record {
      count = t.count;
      sends = t.sends;
      untagged = t.untagged;
      sent = t.sent;
      taken = t.taken.items;
    } };
}

impl Tally {
    /// No events, of a group of `count`.
    pub fn new(alloc: Global, count: u32) -> Tally
        ensures { result ≡ nothing_tallied count }
    {
        Tally {
            count,
            sends: 0,
            untagged: 0,
            sent: SendIndex::new(alloc),
            taken: Vec::new(alloc),
        }
    }

    /// Counts an accepted event of a process.
    pub fn add(&mut self, process: u32, entry: &EntryView<'_>) -> Result<(), AllocError>
        requires new { IsNewSend self.old (record { process = process; entry = entry_of entry.now }) }
        requires room { HasTallyRoom self.old }
        ensures { OnOk result (self.new ≡ with_accepted self.old (record { process = process; entry = entry_of entry.now })) }
    {
        self.add_send(process, entry)?;
        self.add_receipt(process, entry)
    }

    #[tactic(auto, using(crate::proofs::TallyCounts::below_count))]
    fn add_send(&mut self, process: u32, entry: &EntryView<'_>) -> Result<(), AllocError>
        requires new { IsNewSend self.old (record { process = process; entry = entry_of entry.now }) }
        requires room { HasTallyRoom self.old }
        ensures { OnOk result (self.new ≡ with_send self.old (record { process = process; entry = entry_of entry.now })) }
    {
        if is_sent(entry, self.count) {
            self.sent.add(process, entry.clock, entry.call.a0 as u32)?;
            self.sends += 1;
        }
        Ok(())
    }

    fn add_receipt(&mut self, process: u32, entry: &EntryView<'_>) -> Result<(), AllocError>
        requires room { self.old.untagged + 1 < 2 ^ 64 }
        ensures { OnOk result (self.new ≡ with_receipt self.old (record { process = process; entry = entry_of entry.now })) }
    {
        if !is_taken(entry) {
            return Ok(());
        }
        match entry.tag {
            Some(tag) => self.taken.push(Receipt { process, tag })?,
            None => self.untagged += 1,
        }
        Ok(())
    }

    /// The tally of the events so far.
    pub fn counts(&self) -> GroupCounts
        ensures { result ≡ counts_of self.now }
    {
        GroupCounts {
            sends: self.sends,
            receives: self.taken.len() as u64,
            unmatched: unmatched(&self.sent, &self.taken),
            untagged: self.untagged,
        }
    }
}

// Whether the send that the tag names is for the process that took the datagram.
fn is_matched(sent: &SendIndex, receipt: Receipt) -> bool
    ensures { result ≡ is_matched_in sent.now receipt }
{
    match sent.find_send(receipt.tag.sender, receipt.tag.clock) {
        Some(to) => to == receipt.process,
        None => false,
    }
}

fn unmatched(sent: &SendIndex, taken: &[Receipt]) -> u64
    ensures { result ≡ unmatched_receipts_in sent.now taken.now }
{
    let unmatched = taken
        .iter()
        .filter(|receipt| !is_matched(sent, **receipt))
        .count();
    unmatched as u64
}
