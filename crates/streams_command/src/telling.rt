// Tells the streams of a group what its events sent and took.
ghost use Rattle.std.specs.Prelude.{◌≡◌, ◌+◌, ◌<◌, ◌≤◌, ◌^◌, ◌++◌, [], List, None, OnOk};
ghost use Rattle.std.specs.FinMap as map;
ghost use Rattle.lib_calls.specs.Entry.{entry_of};
ghost use Rattle.byte_streams.specs.Traffic.{SendOrReceive};
ghost use Rattle.streams_command.specs.inside.Meanings.{IsToldOf};
ghost use Rattle.streams_command.specs.Streams.{one_if_strange, received_traffic, traffic_of_event};

use byte_streams::{PayloadMark, Streams};
use group_state::GroupEvent;
use lib_calls::{is_sent, is_taken};
use std::alloc::{AllocError, Global};

/// The streams of a group so far; how many sends neither went on with a stream nor repeated a part; and how many receives
/// brought what no send that counts has.
#[derive(Drop)]
pub(crate) struct Told {
    pub(crate) streams: Streams,
    pub(crate) odd: u64,
    pub(crate) foreign: u64,
}

fn one_if_strange(mark: PayloadMark) -> u64
    ensures value { result ≡ one_if_strange mark }
    ensures small { result ≤ 1 }
{
    match mark {
        PayloadMark::Strange => 1,
        PayloadMark::Plain | PayloadMark::Counted => 0,
    }
}

impl Told {
    /// Nothing was sent or taken.
    pub(crate) fn nothing(alloc: Global) -> Told
        ensures { IsToldOf result [] }
    {
        Told {
            streams: Streams::new(alloc),
            odd: 0,
            foreign: 0,
        }
    }

    // A process took what it took.
    fn tell_receive(&mut self, process: u32, event: &GroupEvent<'_>) -> Result<(), AllocError>
        requires { self.old.foreign + 1 < 2 ^ 64 }
        ensures { OnOk result ((early : List SendOrReceive) → IsToldOf self.old early
            → IsToldOf self.new (received_traffic process (entry_of event.now.entry) event.now.entry.tag ++ early)) }
    {
        let entry = &event.entry;
        if let Some(tag) = entry.tag {
            let mark = self.streams.add_received(process, tag, entry.incoming)?;
            self.foreign += one_if_strange(mark);
        }
        Ok(())
    }

    /// An event of a process, of a group of `count`.
    #[tactic(auto, using(crate::proofs::SentInGroup::below_count))]
    pub(crate) fn tell(
        &mut self,
        count: u32,
        process: u32,
        event: &GroupEvent<'_>,
    ) -> Result<(), AllocError>
        requires new { map.get self.old.streams.sends (process, event.now.entry.clock) ≡ None }
        requires odd { self.old.odd + 1 < 2 ^ 64 }
        requires foreign { self.old.foreign + 1 < 2 ^ 64 }
        ensures { OnOk result ((early : List SendOrReceive) → IsToldOf self.old early
            → IsToldOf self.new (traffic_of_event count process (entry_of event.now.entry) ++ early)) }
    {
        let entry = &event.entry;
        if is_sent(entry, count) {
            let to = entry.call.a0 as u32;
            let mark = self
                .streams
                .add_sent(process, entry.clock, to, entry.outgoing)?;
            self.odd += one_if_strange(mark);
            Ok(())
        } else if is_taken(entry) {
            self.tell_receive(process, event)
        } else {
            Ok(())
        }
    }
}
