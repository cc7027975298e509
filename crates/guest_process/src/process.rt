// A process.
ghost use Rattle.std.specs.Prelude.{◌≡◌, ◌≢◌, ◌<◌, ◌≤◌, ◌^◌, IfOk, Err, None, Some, Option, not, option_copied, option_map, length, slice_get};
ghost use Rattle.lamport_tag.specs.Limits.{most_processes};
ghost use Rattle.coop_threads.specs.Crew.{status_of};
ghost use Rattle.guest_memory.specs.Memory.{stamp_of};
ghost use Rattle.lib_calls.specs.Answer.{Answer};
ghost use Rattle.lib_calls.specs.Entry.{entry_of};
ghost use Rattle.wasm_types.specs.Modules.{module_of};
ghost use Rattle.wasm_store.specs.Suits.{SuitsModule};
ghost use Rattle.wasm_store.specs.Start.{first_store};
ghost use Rattle.wasm_store.specs.Store.{global_stamp_of};
ghost use Rattle.guest_process.specs.Answers.{need};
ghost use Rattle.guest_process.specs.Fits.{StateFits};
ghost use Rattle.guest_process.specs.Legal.{reason};
ghost use Rattle.guest_process.specs.Next.{next};
ghost use Rattle.guest_process.specs.Meanings.{able, handles_after, plain_need, thread_frames};
ghost use Rattle.guest_process.specs.Start.{start};
ghost use Rattle.guest_process.specs.State.{is_running};

use crate::answer::handler;
use crate::body::Body;
use crate::end::End;
use crate::frames::Frames;
use crate::need::Need;
use crate::waiting::{Waiting, beginning};
use coop_threads::{Crew, Status};
use guest_memory::Memory;
use guest_module::ValidModule;
use guest_signals::Handlers;
use lib_calls::{Call, EntryView};
use std::alloc::{AllocError, Global};
use std::marker::Model;
use wasm_step::{StartError, Store, Strand};
use wasm_types::Value;

/// A process of a guest.
pub struct Process<'m> {
    // Behind a box, since a process is moved at each event.
    pub(crate) body: Box<Body<'m>>,
}

// By hand, so that it is proved here, and not in each crate that owns one.
impl Drop for Process<'_> {
    fn drop(self) {
        let Self { body: _body } = self;
    }
}

impl<'m> Model for Process<'m> {
    ghost use Rattle.std.specs.Coded.{codes};
    ghost use Rattle.wasm_types.specs.Coding.{trees_code};
    ghost use Rattle.coop_threads.specs.Crew.{crew_code};
    ghost use Rattle.guest_process.specs.inside.Meanings.{BodyInvariant, state_of};
    ghost use Rattle.guest_process.specs.State.{State};

    ghost Value = { State };

    ghost coded = { Prim.hlevel (codes, trees_code, crew_code) };

    ghost view = { λ p. state_of p.body.value };

    ghost invariant = { λ p. BodyInvariant p.body.value };
}

impl<'m> Process<'m> {
    /// Process `who` of a group of `count`, whose thread 0 is at `begin`. `BadSegment` comes exactly
    /// where an element segment ends past the table or a data segment past the memory, and is found
    /// without memory.
    pub fn start(
        alloc: Global,
        module: &'m ValidModule,
        who: u32,
        count: u32,
    ) -> Result<Process<'m>, StartError>
        requires who { who < count }
        requires count { count ≤ most_processes }
        ensures ok { IfOk result (λ p. start (module_of «module».now) who count ≡ Some p) }
        ensures bad { (result ≡ Err StartError.BadSegment) → start (module_of «module».now) who count ≡ None }
        ensures sure { first_store (module_of «module».now) ≡ None → result ≡ Err StartError.BadSegment }
    {
        match Store::start(alloc, module) {
            Ok(store) => match begin(alloc, module, who, count, store) {
                Ok(process) => Ok(process),
                Err(AllocError) => Err(StartError::NoMemory),
            },
            Err(error) => Err(error),
        }
    }

    /// Whether the process runs, and how it ended.
    pub fn end(&self) -> End
        ensures { result ≡ self.now.end }
    {
        self.body.end
    }

    /// The pending call of a thread. `None` comes exactly where the process is not running or the thread
    /// is not live.
    pub fn pending(&self, thread: u16) -> Option<&Call>
        ensures { option_copied result ≡ option_map (λ w. w.call) (able self.now thread) }
    {
        match self.able(thread) {
            Some(waiting) => Some(&waiting.call),
            None => None,
        }
    }

    /// What the answer to a call depends on if the thread makes it.
    pub fn need(&self, thread: u16, call: &Call) -> Need
        ensures { result ≡ plain_need (need call.now.kind self.now thread call.now) }
    {
        self.body.need(thread, call)
    }

    // The thread with this number, where it is live and the process runs.
    fn able(&self, thread: u16) -> Option<&Waiting<'m>>
        ensures { option_map (λ w. w.now) result ≡ able self.now thread }
    {
        if !self.body.is_running() {
            return None;
        }
        self.body.crew.get(thread)
    }

    /// Whether a signal has a handler once the pending call of the thread is answered, however it is.
    pub fn handles_after(&self, thread: u16, signal: u8) -> bool
        ensures { (a : Answer) → result ≡ handles_after self.now thread a signal }
    {
        match self.body.crew.get(thread) {
            Some(waiting) => handler(&self.body.handlers_after(waiting), signal).is_some(),
            None => handler(&self.body.handlers, signal).is_some(),
        }
    }

    /// The process after the event of a legal entry. Another thread's strand stays as it was.
    pub fn advance(self, entry: &EntryView<'_>) -> Result<Process<'m>, AllocError>
        requires legal { reason self (entry_of entry.now) ≡ None }
        requires few { self.events < 2 ^ 61 }
        ensures { IfOk result (λ p. p ≡ next self.entry (entry_of entry.now)) }
    {
        // Their laws tell the proof what a burst and a write leave as it is, and what they mark.
        wasm_step::laws::never_stuck();
        wasm_step::laws::marked();
        let Self { mut body } = self;
        body.advance(entry)?;
        Ok(Process { body })
    }

    /// The memory, which is empty where the module has none.
    pub fn memory(&self) -> &Memory
        ensures { result.now ≡ self.now.store.memory }
    {
        self.body.store.memory()
    }

    /// The number of the last event that wrote to a byte of the watch page. It is 0 where none did, and
    /// where there is no such page.
    pub fn page_mark(&self, page: u32) -> u64
        ensures { result ≡ stamp_of self.now.store.memory page }
    {
        self.body.store.memory().stamp(page)
    }

    /// The number of the last event that set the global, also to an equal value. It is 0 where none did, and
    /// where there is no such global.
    pub fn global_mark(&self, n: u32) -> u64
        ensures { result ≡ global_stamp_of self.now.store n }
    {
        self.body.store.global_stamp(n)
    }

    /// The number of the last event that made the memory larger, or 0.
    pub fn size_mark(&self) -> u64
        ensures { result ≡ self.now.store.size_stamp }
    {
        self.body.store.size_stamp()
    }

    /// The value of a global. `None` comes exactly where the module has no global of that index.
    pub fn global(&self, n: u32) -> Option<Value>
        ensures { result ≡ slice_get self.now.store.globals n }
    {
        self.body.store.global(n)
    }

    /// How many processes its group has.
    pub fn count(&self) -> u32
        ensures { result ≡ self.now.count }
    {
        self.body.count
    }

    /// The clock of the last event, or 0 before the first.
    pub fn clock(&self) -> u64
        ensures { result ≡ self.now.clock }
    {
        self.body.clock
    }

    /// How many events there were.
    pub fn events(&self) -> u64
        ensures count { result ≡ self.now.events }
        ensures fits { StateFits self.now }
    {
        self.body.events
    }

    /// The thread of the last event. `None` comes exactly before the first.
    pub fn last_thread(&self) -> Option<u16>
        ensures { result ≡ self.now.last_thread }
    {
        self.body.last_thread
    }

    /// Whether the process has ended.
    pub fn has_ended(&self) -> bool
        ensures { result ≡ not (is_running self.now) }
    {
        !self.body.is_running()
    }

    /// The functions of the frames of a thread, the innermost first, counted as the module counts them, imports first. The
    /// thread in whose burst the process trapped has those from before the instruction that trapped. Any other thread that is not
    /// live or whose process has ended has none.
    pub fn frames(&self, alloc: Global, thread: u16) -> Result<Vec<u32>, AllocError>
        ensures { IfOk result (λ frames. frames.items ≡ thread_frames self.now thread) }
    {
        match self.body.end {
            End::Running => match self.body.crew.get(thread) {
                Some(waiting) => waiting.strand.functions(),
                None => Ok(Vec::new(alloc)),
            },
            End::Trapped(_) if self.body.last_thread == Some(thread) => self
                .body
                .trap_frames
                .list(),
            _ => Ok(Vec::new(alloc)),
        }
    }

    /// How many threads were made.
    pub fn threads(&self) -> u16
        ensures { result ≡ length self.now.crew.threads }
    {
        self.body.crew.made()
    }

    /// How a thread stands.
    #[tactic(auto, using(crate::proofs::EventCode::none_taken))]
    pub fn status(&self, thread: u16) -> Status
        ensures status { result ≡ status_of (slice_get self.now.crew.threads thread) }
        ensures here { result ≢ Status.Taken }
    {
        self.body.crew.status(thread)
    }

    /// An equal process.
    pub fn copy(&self, alloc: Global) -> Result<Process<'m>, AllocError>
        ensures { IfOk result (λ p. p ≡ self.now) }
    {
        let body = Box::new(alloc, self.body.copy(alloc)?)?;
        Ok(Process { body })
    }
}

// The process before its first event.
fn begin<'m>(
    alloc: Global,
    module: &'m ValidModule,
    who: u32,
    count: u32,
    mut store: Store<'m>,
) -> Result<Process<'m>, AllocError>
    requires who { who < count }
    requires count { count ≤ most_processes }
    requires store { first_store (module_of «module».now) ≡ Some store }
    requires suits { SuitsModule store }
    ensures { IfOk result (λ p. start (module_of «module».now) who count ≡ Some p) }
{
    // Its laws tell the proof that no page bears an event's number.
    guest_memory::laws::stamps_no_later();
    let strand = Strand::first(alloc, module)?;
    let mut crew = Crew::new(alloc);
    match crew.spawn(beginning(strand)) {
        Ok(_) => {}
        Err(_) => return Err(AllocError),
    }
    let _ = module.module();
    store.begin_event(1);
    let body = Body {
        alloc,
        module,
        who,
        count,
        store,
        crew,
        handlers: Handlers::new(),
        clock: 0,
        events: 0,
        last_thread: None,
        end: End::Running,
        trap_frames: Frames::new(Vec::new(alloc)),
    };
    let body = Box::new(alloc, body)?;
    Ok(Process { body })
}
