// A group that goes on try by try, without files.
ghost use Rattle.std.specs.Prelude.{◌≡◌, ◌<◌, ◌^◌, Some, IfOk, length, map, slice_get};
ghost use Rattle.schedule_text.specs.Schedule.{IsInRange};
ghost use Rattle.wasm_types.specs.Modules.{module_of};
ghost use Rattle.group_record.specs.Answer.{first_states};
ghost use Rattle.group_record.specs.Live.{BeginsLive, IsNoRun, LiveActs, LiveTries, TellsKilled, TellsPrinted, TellsSent, live_count, live_states};

use crate::begin::begin_members;
use crate::error::RecordError;
use crate::parts::Parts;
use crate::tried::Tried;
use group_world::SentBytes;
use guest_module::SharedModule;
use guest_process::Process;
use schedule_text::{Item, Schedule};
use std::alloc::{AllocError, Global};
use std::marker::Model;

/// A group that goes on try by try. No log is kept, but the size of each is, so that no event is made for which a
/// log would have no room. Contracts see its processes, the world around them and what they printed
/// (`LiveParts`). After want of memory at an event it has no process.
pub struct LiveGroup<'m> {
    parts: Parts<'m>,
}

// By hand, so that it is proved here, and not in each crate that owns one.
impl Drop for LiveGroup<'_> {
    fn drop(self) {
        let Self { parts: _parts } = self;
    }
}

impl<'m> Model for LiveGroup<'m> {
    ghost use Rattle.std.specs.Coded.{codes};
    ghost use Rattle.guest_process.specs.Coding.{crew_code, trees_code};
    ghost use Rattle.group_record.specs.Live.{LiveParts};
    ghost use Rattle.group_record.specs.inside.Parts.{AreSoundParts, live_parts};

    ghost Value = { LiveParts };

    ghost coded = { Prim.hlevel (codes, trees_code, crew_code) };

    ghost view = { λ g. live_parts g.parts };

    ghost invariant = { λ g. AreSoundParts g.parts };
}

impl<'m> LiveGroup<'m> {
    /// The group of a schedule, whose processes are of these modules, one for each, before the first item.
    pub fn begin(
        alloc: Global,
        schedule: &Schedule,
        modules: &'m [SharedModule],
    ) -> Result<LiveGroup<'m>, RecordError>
        requires { length modules.now ≡ length schedule.now.processes }
        ensures { BeginsLive schedule.now (first_states schedule.now (map module_of modules.now)) result }
    {
        group_world::laws::by_counting();
        let members = begin_members(alloc, schedule.processes(), modules)?;
        let parts = Parts::new(alloc, members)?;
        Ok(LiveGroup { parts })
    }

    /// One try of a thread of process `p`. The entry of its event is spelled in `bytes`, from where its bytes are lent.
    pub fn attempt<'a>(
        &mut self,
        p: u32,
        thread: u16,
        bytes: &'a mut Vec<u8>,
    ) -> Result<Tried<'a>, AllocError>
        requires { p < live_count self.old }
        ensures { IfOk result (λ tried. LiveTries self.old p thread tried self.new) }
    {
        self.parts.attempt(p, thread, bytes)
    }

    /// Does an item that is not `run`, and tells whether it acted. Of `run` nothing is done.
    pub fn act(&mut self, item: &Item) -> Result<bool, AllocError>
        requires { IsInRange (live_count self.old) item.now }
        ensures { IfOk result (λ acted. IsNoRun item.now → LiveActs self.old item.now acted self.new) }
    {
        self.parts.act(item)
    }

    /// How many processes there are.
    pub fn count(&self) -> u32
        ensures { result ≡ live_count self.now }
    {
        self.parts.members.len() as u32
    }

    /// Process `p`.
    pub fn process(&self, p: u32) -> &Process<'m>
        requires { p < live_count self.now }
        ensures state { slice_get (live_states self.now) p ≡ Some result.now }
        ensures few { result.now.events < 2 ^ 61 }
    {
        self.parts.process(p)
    }

    /// Whether process `p` was killed.
    pub fn is_killed(&self, p: u32) -> bool
        requires { p < live_count self.now }
        ensures { TellsKilled self.now p result }
    {
        self.parts.is_killed(p)
    }

    /// The nth datagram that process `p` sent into the group, from 1, as it would be delivered.
    pub fn sent(&self, p: u32, n: u64) -> Option<SentBytes<'_>>
        requires { p < live_count self.now }
        ensures { TellsSent self.now p n result }
    {
        self.parts.sent(p, n)
    }

    /// All that process `p` printed.
    pub fn printed(&self, p: u32) -> &[u8]
        requires { p < live_count self.now }
        ensures { TellsPrinted self.now p result.now }
    {
        self.parts.printed(p)
    }
}
