// A group that is recorded, try by try.
ghost use Rattle.std.specs.Prelude.{◌≡◌, ◌+◌, ◌<◌, ◌≤◌, ◌^◌, ℕ, All, OnOk, IsTrue, length, slice_get, sum_by, Some, if◌then◌else◌};
ghost use Rattle.lib_calls.specs.Entry.{entry_of};
ghost use Rattle.lib_calls.specs.Traffic.{drawn as drawn_of, is_taken as is_taken_of};
ghost use Rattle.lossy_net.specs.Network.{mailbox_of};
ghost use Rattle.schedule_text.specs.Schedule.{IsInRange};
ghost use Rattle.group_world.specs.World.{process_count, surroundings_of};
ghost use Rattle.group_record.specs.declared.member.Member.{Member as MemberOf};
ghost use Rattle.group_record.specs.Run.{after_item, after_items, attempt, run_attempts};
ghost use Rattle.group_record.specs.inside.Recorded.{AdvancesRecorder, HasCountsFor, IsLoggedEvent, RecordingUnderWay, recorder_acted_on, item_acts, after_act, total_counted_tries, counted_tries_of};
ghost use Rattle.group_record.specs.inside.Members.{CanKeepEntry, WritesToLog, spelled_entry};
ghost use Rattle.group_record.specs.Answer.{after_writes};
ghost use Rattle.group_record.specs.Files.{change};

use crate::error::RecordError;
use crate::event::{live_event, spell_event, spelled_event};
use crate::items::act;
use crate::member::Member;
use crate::prints::Prints;
use fri_outside::Files;
use group_world::World;
use lib_calls::EntryView;
use schedule_text::Item;
use std::alloc::{AllocError, Global};

/// A group that is recorded: its processes, the world around them, what they print, where it is kept, and how
/// many steps acted and tries and items were idle.
#[derive(Drop)]
pub(crate) struct Recorder<'m> {
    pub(crate) members: Vec<Member<'m>>,
    pub(crate) world: World,
    pub(crate) prints: Prints,
    pub(crate) acted: u64,
    pub(crate) idle: u64,
}

impl<'m> Recorder<'m> {
    /// Does all items of a schedule.
    pub(crate) fn perform_all<F: Files>(
        &mut self,
        alloc: Global,
        items: &[Item],
        files: &mut F,
    ) -> Result<(), RecordError>
        requires under_way { RecordingUnderWay self.old (F.told files.old) }
        requires in_range { All (IsInRange (length self.old.members.items)) items.now }
        requires few { HasCountsFor (sum_by counted_tries_of items.now) self.old }
        ensures comes { AdvancesRecorder (λ group. after_items group 1 items.now) self.old result self.new (change (F.told files.old) (F.told files.new)) }
        ensures prints { OnOk result (length self.new.prints ≡ length self.old.prints) }
        ensures counted { F.counts files.new ≡ after_writes (F.counts files.old) result }
    {
        let mut bytes = Vec::new(alloc);
        let mut number = 0;
        for item in items {
            number += 1;
            self.perform(number, item, &mut bytes, files)?;
        }
        Ok(())
    }

    // Does the item with this number, from 1. The entries of its events are spelled in `bytes`, one after the other.
    fn perform<F: Files>(
        &mut self,
        number: u64,
        item: &Item,
        bytes: &mut Vec<u8>,
        files: &mut F,
    ) -> Result<(), RecordError>
        requires under_way { RecordingUnderWay self.old (F.told files.old) }
        requires in_range { IsInRange (length self.old.members.items) item.now }
        requires few { HasCountsFor (counted_tries_of item.now) self.old }
        ensures comes { AdvancesRecorder (λ group. after_item group number item.now) self.old result self.new (change (F.told files.old) (F.told files.new)) }
        ensures total { OnOk result (total_counted_tries self.new ≡ total_counted_tries self.old + counted_tries_of item.now) }
        ensures prints { OnOk result (length self.new.prints ≡ length self.old.prints) }
        ensures counted { F.counts files.new ≡ after_writes (F.counts files.old) result }
    {
        group_world::laws::by_counting();
        match item {
            Item::Run {
                process,
                thread,
                times,
            } => self.run(number, *process, *thread, *times, bytes, files),
            _ => Ok(self.act(item)?),
        }
    }

    // So many tries of a thread.
    fn run<F: Files>(
        &mut self,
        number: u64,
        p: u32,
        thread: u16,
        times: u32,
        bytes: &mut Vec<u8>,
        files: &mut F,
    ) -> Result<(), RecordError>
        requires under_way { RecordingUnderWay self.old (F.told files.old) }
        requires process { p < length self.old.members.items }
        requires few { HasCountsFor times self.old }
        ensures comes { AdvancesRecorder (λ group. run_attempts group number p thread times) self.old result self.new (change (F.told files.old) (F.told files.new)) }
        ensures total { OnOk result (total_counted_tries self.new ≡ total_counted_tries self.old + times) }
        ensures prints { OnOk result (length self.new.prints ≡ length self.old.prints) }
        ensures counted { F.counts files.new ≡ after_writes (F.counts files.old) result }
    {
        for _ in 0..times {
            self.attempt(number, p, thread, bytes, files)?;
        }
        Ok(())
    }

    // One try of a thread, in the item with this number.
    fn attempt<F: Files>(
        &mut self,
        number: u64,
        p: u32,
        thread: u16,
        bytes: &mut Vec<u8>,
        files: &mut F,
    ) -> Result<(), RecordError>
        requires under_way { RecordingUnderWay self.old (F.told files.old) }
        requires process { p < length self.old.members.items }
        requires few { HasCountsFor 1 self.old }
        ensures comes { AdvancesRecorder (λ group. attempt group number p thread) self.old result self.new (change (F.told files.old) (F.told files.new)) }
        ensures total { OnOk result (total_counted_tries self.new ≡ total_counted_tries self.old + 1) }
        ensures prints { OnOk result (length self.new.prints ≡ length self.old.prints) }
        ensures counted { F.counts files.new ≡ after_writes (F.counts files.old) result }
    {
        group_world::laws::by_counting();
        fri_outside::laws::keeps_files();
        let member = &self.members[p as usize];
        let Some(process) = &member.process else {
            unreachable!();
        };
        let Some(event) = live_event(process, thread, &self.world, p) else {
            self.idle += 1;
            return Ok(());
        };
        let start = spell_event(process, &event, member.last, bytes)?;
        let entry = spelled_event(bytes, &event, start);
        self.log_event(number, p, &entry, bytes, files)
    }

    // Writes the entry of an event, which is spelled in `bytes`, to the log of its process, and makes the event.
    fn log_event<F: Files>(
        &mut self,
        number: u64,
        p: u32,
        entry: &EntryView<'_>,
        bytes: &[u8],
        files: &mut F,
    ) -> Result<(), RecordError>
        requires process { p < length self.old.members.items }
        requires around { p < process_count self.old.world }
        requires event { (m : MemberOf) → slice_get self.old.members.items p ≡ Some m → CanKeepEntry m (entry_of entry.now) }
        requires spelled { (m : MemberOf) → slice_get self.old.members.items p ≡ Some m → bytes.now ≡ spelled_entry m (entry_of entry.now) }
        requires datagram { IsTrue (is_taken_of (entry_of entry.now)) → 1 ≤ length (mailbox_of self.old.world.net p) }
        requires drawn { drawn_of (entry_of entry.now) ≤ length (surroundings_of self.old.world p).pool }
        requires few { HasCountsFor 1 self.old }
        ensures writes { (m : MemberOf) → slice_get self.old.members.items p ≡ Some m →
            WritesToLog m number (spelled_entry m (entry_of entry.now)) result (change (F.told files.old) (F.told files.new)) }
        ensures ok { OnOk result ((m : MemberOf) → slice_get self.old.members.items p ≡ Some m → IsLoggedEvent self.old p m (entry_of entry.now) self.new) }
        ensures prints { OnOk result (length self.new.prints ≡ length self.old.prints) }
        ensures counted { F.counts files.new ≡ after_writes (F.counts files.old) result }
    {
        self.members[p as usize].log_event(number, entry, bytes, files)?;
        self.world.take_event(p, entry)?;
        self.prints.add(p, entry)?;
        self.acted += 1;
        Ok(())
    }

    // Does an item that is not `run`.
    fn act(&mut self, item: &Item) -> Result<(), AllocError>
        requires around { process_count self.old.world ≡ length self.old.members.items }
        requires in_range { IsInRange (length self.old.members.items) item.now }
        requires few { HasCountsFor 1 self.old }
        ensures { OnOk result (self.new ≡ recorder_acted_on (item_acts self.old.members.items self.old.world item.now)
            (after_act self.old.members.items self.old.world item.now) self.old) }
    {
        if act(item, &self.members, &mut self.world)? {
            self.acted += 1;
        } else {
            self.idle += 1;
        }
        Ok(())
    }
}
