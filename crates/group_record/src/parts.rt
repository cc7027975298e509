// What a group is made of that goes on try by try.
ghost use Rattle.std.specs.Prelude.{◌≡◌, ◌<◌, ◌≤◌, ◌^◌, Some, IfOk, OnOk, IsTrue, length, slice_get};
ghost use Rattle.lamport_tag.specs.Limits.{most_processes};
ghost use Rattle.lib_calls.specs.Entry.{entry_of};
ghost use Rattle.lib_calls.specs.Traffic.{drawn as drawn_of, is_taken as is_taken_of};
ghost use Rattle.lossy_net.specs.Network.{mailbox_of};
ghost use Rattle.schedule_text.specs.Schedule.{IsInRange};
ghost use Rattle.group_world.specs.World.{process_count, surroundings_of};
ghost use Rattle.group_record.specs.declared.member.Member.{Member as MemberOf};
ghost use Rattle.group_record.specs.Live.{IsNoRun, LiveActs, LiveTries, TellsKilled, TellsPrinted, TellsSent, live_states};
ghost use Rattle.group_record.specs.inside.Members.{CanKeepEntry, spelled_entry};
ghost use Rattle.group_record.specs.inside.Parts.{AreNewParts, AreSoundParts, CanMakeEvent, CountsEvent, MadeEvent, TakesEntry, live_parts};

use crate::event::{live_event, spell_event, spelled_event};
use crate::items::act;
use crate::member::Member;
use crate::prints::Prints;
use crate::tried::Tried;
use group_world::{SentBytes, World};
use guest_process::Process;
use lib_calls::EntryView;
use schedule_text::Item;
use std::alloc::{AllocError, Global};

/// The processes with their logs' sizes, the world around them, and what they print. After want of memory at an event no
/// process is left.
#[derive(Drop)]
pub(crate) struct Parts<'m> {
    pub(crate) members: Vec<Member<'m>>,
    pub(crate) world: World,
    pub(crate) prints: Prints,
}

impl<'m> Parts<'m> {
    /// Around these members nothing has happened, and nothing is printed.
    pub(crate) fn new(alloc: Global, members: Vec<Member<'m>>) -> Result<Parts<'m>, AllocError>
        requires { length members.items ≤ most_processes }
        ensures { IfOk result (AreNewParts members.entry.items) }
    {
        let count = members.len() as u32;
        let world = World::new(alloc, count)?;
        let prints = Prints::new(alloc, true, count)?;
        Ok(Parts {
            members,
            world,
            prints,
        })
    }

    /// One try of a thread. The entry of its event is spelled in `bytes`, so that its size is known.
    pub(crate) fn attempt<'a>(
        &mut self,
        p: u32,
        thread: u16,
        bytes: &'a mut Vec<u8>,
    ) -> Result<Tried<'a>, AllocError>
        requires sound { AreSoundParts self.old }
        requires process { p < length self.old.members.items }
        ensures sound { AreSoundParts self.new }
        ensures tries { IfOk result (λ tried. LiveTries (live_parts self.old) p thread tried (live_parts self.new)) }
    {
        group_world::laws::by_counting();
        let member = &self.members[p as usize];
        let Some(process) = &member.process else {
            unreachable!();
        };
        let Some(event) = live_event(process, thread, &self.world, p) else {
            return Ok(Tried::Idle);
        };
        let start = spell_event(process, &event, member.last, bytes)?;
        let entry = spelled_event(bytes, &event, start);
        self.take_entry(p, entry, bytes.len())
    }

    // Makes the event of an entry that takes so many bytes, where the log of its process has room.
    fn take_entry<'a>(
        &mut self,
        p: u32,
        entry: EntryView<'a>,
        size: usize,
    ) -> Result<Tried<'a>, AllocError>
        requires sound { AreSoundParts self.old }
        requires process { p < length self.old.members.items }
        requires event { (m : MemberOf) → slice_get self.old.members.items p ≡ Some m → CanKeepEntry m (entry_of entry) }
        requires counted { (m : MemberOf) → slice_get self.old.members.items p ≡ Some m → CountsEvent m (entry_of entry) }
        requires size { (m : MemberOf) → slice_get self.old.members.items p ≡ Some m → size ≡ length (spelled_entry m (entry_of entry)) }
        requires datagram { IsTrue (is_taken_of (entry_of entry)) → 1 ≤ length (mailbox_of self.old.world.net p) }
        requires drawn { drawn_of (entry_of entry) ≤ length (surroundings_of self.old.world p).pool }
        ensures sound { AreSoundParts self.new }
        ensures takes { IfOk result (λ tried. (m : MemberOf) → slice_get self.old.members.items p ≡ Some m → TakesEntry self.old p m (entry_of entry.entry) tried self.new) }
    {
        if !self.members[p as usize].has_room(size) {
            return Ok(Tried::Full);
        }
        self.make_event(p, &entry, size)?;
        Ok(Tried::Had(entry))
    }

    // Makes the event of an entry that was spelled and for which the log has room. After want of memory no process is left,
    // since one that was to make an event is gone.
    fn make_event(&mut self, p: u32, entry: &EntryView<'_>, size: usize) -> Result<(), AllocError>
        requires sound { AreSoundParts self.old }
        requires process { p < length self.old.members.items }
        requires event { (m : MemberOf) → slice_get self.old.members.items p ≡ Some m → CanMakeEvent m (entry_of entry.now) size }
        requires datagram { IsTrue (is_taken_of (entry_of entry.now)) → 1 ≤ length (mailbox_of self.old.world.net p) }
        requires drawn { drawn_of (entry_of entry.now) ≤ length (surroundings_of self.old.world p).pool }
        ensures sound { AreSoundParts self.new }
        ensures made { OnOk result ((m : MemberOf) → slice_get self.old.members.items p ≡ Some m → MadeEvent self.old p m (entry_of entry.now) self.new) }
    {
        match self.try_event(p, entry, size) {
            Ok(()) => Ok(()),
            Err(error) => {
                self.members.clear();
                Err(error)
            }
        }
    }

    // The same, but after want of memory the parts are in between.
    fn try_event(&mut self, p: u32, entry: &EntryView<'_>, size: usize) -> Result<(), AllocError>
        requires around { p < process_count self.old.world }
        requires process { p < length self.old.members.items }
        requires event { (m : MemberOf) → slice_get self.old.members.items p ≡ Some m → CanMakeEvent m (entry_of entry.now) size }
        requires datagram { IsTrue (is_taken_of (entry_of entry.now)) → 1 ≤ length (mailbox_of self.old.world.net p) }
        requires drawn { drawn_of (entry_of entry.now) ≤ length (surroundings_of self.old.world p).pool }
        ensures made { OnOk result ((m : MemberOf) → slice_get self.old.members.items p ≡ Some m → MadeEvent self.old p m (entry_of entry.now) self.new) }
        ensures size { OnOk result (process_count self.new.world ≡ process_count self.old.world) }
    {
        self.members[p as usize].make_event(entry, size)?;
        self.world.take_event(p, entry)?;
        self.prints.add(p, entry)?;
        Ok(())
    }

    /// Does an item that is not `run`, and tells whether it acted. Of `run` nothing is done.
    pub(crate) fn act(&mut self, item: &Item) -> Result<bool, AllocError>
        requires sound { AreSoundParts self.old }
        requires in_range { IsInRange (length self.old.members.items) item.now }
        ensures sound { AreSoundParts self.new }
        ensures acts { IfOk result (λ acted. IsNoRun item.now → LiveActs (live_parts self.old) item.now acted (live_parts self.new)) }
    {
        group_world::laws::by_counting();
        act(item, &self.members, &mut self.world)
    }

    /// Process `p`.
    pub(crate) fn process(&self, p: u32) -> &Process<'m>
        requires sound { AreSoundParts self.now }
        requires process { p < length self.now.members.items }
        ensures state { slice_get (live_states (live_parts self.now)) p ≡ Some result.now }
        ensures few { result.now.events < 2 ^ 61 }
    {
        let Some(process) = &self.members[p as usize].process else {
            unreachable!();
        };
        process
    }

    /// Whether process `p` was killed.
    pub(crate) fn is_killed(&self, p: u32) -> bool
        requires sound { AreSoundParts self.now }
        requires process { p < length self.now.members.items }
        ensures { TellsKilled (live_parts self.now) p result }
    {
        group_world::laws::by_counting();
        self.world.is_killed(p)
    }

    /// The nth datagram that process `p` sent into the group, from 1.
    pub(crate) fn sent(&self, p: u32, n: u64) -> Option<SentBytes<'_>>
        requires sound { AreSoundParts self.now }
        requires process { p < length self.now.members.items }
        ensures { TellsSent (live_parts self.now) p n result }
    {
        group_world::laws::by_counting();
        self.world.sent(p, n)
    }

    /// All that process `p` printed.
    pub(crate) fn printed(&self, p: u32) -> &[u8]
        requires sound { AreSoundParts self.now }
        requires process { p < length self.now.members.items }
        ensures { TellsPrinted (live_parts self.now) p result.now }
    {
        self.prints.of(p as usize)
    }
}
