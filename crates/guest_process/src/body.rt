// The body of a process, and how its threads stop.
ghost use Rattle.std.specs.Prelude.{◌≡◌, IfOk};
ghost use Rattle.coop_threads.specs.Crew.{IsTaken};
ghost use Rattle.wasm_types.specs.Modules.{module_of};
ghost use Rattle.wasm_step.specs.Pause.{StandsAt, pause_halt};
ghost use Rattle.wasm_stack.specs.After.{Ends};
ghost use Rattle.guest_process.specs.Answers.{exited_process};
ghost use Rattle.guest_process.specs.GoesOn.{all_over, stopped_thread, trapped_thread};
ghost use Rattle.guest_process.specs.inside.Meanings.{state_of};
ghost use Rattle.guest_process.specs.State.{is_running};

use crate::calls::call_of_site;
use crate::end::End;
use crate::frames::Frames;
use crate::waiting::Waiting;
use coop_threads::{Crew, Status};
use guest_module::ValidModule;
use guest_signals::Handlers;
use std::alloc::{AllocError, Global};
use wasm_step::{Pause, Store};
use wasm_types::Trap;

/// What a process consists of.
#[derive(Drop)]
pub(crate) struct Body<'m> {
    pub(crate) alloc: Global,
    pub(crate) module: &'m ValidModule,
    pub(crate) who: u32,
    pub(crate) count: u32,
    pub(crate) store: Store<'m>,
    pub(crate) crew: Crew<Waiting<'m>>,
    pub(crate) handlers: Handlers,
    pub(crate) clock: u64,
    pub(crate) events: u64,
    pub(crate) last_thread: Option<u16>,
    pub(crate) end: End,
    /// The functions of the frames of the thread that trapped.
    pub(crate) trap_frames: Frames,
}

impl<'m> Body<'m> {
    pub(crate) fn is_running(&self) -> bool
        ensures { result ≡ is_running (state_of self.now) }
    {
        match self.end {
            End::Running => true,
            _ => false,
        }
    }

    /// A thread that was taken out traps, with these functions of its frames.
    pub(crate) fn trap(&mut self, thread: u16, trap: Trap, functions: Vec<u32>)
        requires { IsTaken self.old.crew thread }
        ensures state { state_of self.new ≡ trapped_thread (state_of self.old) thread trap functions.items }
        ensures same_module { self.new.«module» ≡ self.old.«module» }
        ensures store { self.new.store ≡ self.old.store }
    {
        self.crew.end(thread);
        self.end = End::Trapped(trap);
        self.trap_frames = Frames::new(functions);
    }

    /// A thread that was taken out stops where its burst paused.
    pub(crate) fn stop(&mut self, thread: u16, pause: Pause<'m>)
        requires taken { IsTaken self.old.crew thread }
        requires same_module { module_of self.old.«module».now ≡ self.old.store.«module» }
        requires stands { StandsAt self.old.store.«module» pause }
        ensures state { state_of self.new ≡ stopped_thread (state_of self.old) thread (pause_halt pause.entry) }
        ensures same_module { self.new.«module» ≡ self.old.«module» }
        ensures store { self.new.store ≡ self.old.store }
    {
        match pause {
            Pause::AtCall(strand, site) => match self.module.import_kind(site.func) {
                Some(kind) => {
                    let call = call_of_site(kind, site);
                    self.crew.put(thread, Waiting { call, strand });
                }
                None => self.trap(thread, Trap::Unreachable, Vec::new(self.alloc)),
            },
            Pause::Ended => self.finish(thread),
            Pause::Trapped(trap, functions) => self.trap(thread, trap, functions),
        }
    }

    /// A thread that was taken out has called `exit` with this code.
    pub(crate) fn exit(&mut self, thread: u16, code: u64)
        requires { IsTaken self.old.crew thread }
        ensures state { state_of self.new ≡ exited_process (state_of self.old) thread code }
        ensures same_module { self.new.«module» ≡ self.old.«module» }
        ensures store { self.new.store ≡ self.old.store }
    {
        self.crew.end(thread);
        let bits = (code % 0x1_0000_0000) as u32;
        self.end = End::Exited(bits.cast_signed());
    }

    /// An equal body.
    pub(crate) fn copy(&self, alloc: Global) -> Result<Body<'m>, AllocError>
        ensures { IfOk result (λ p. p ≡ self.now) }
    {
        Ok(Body {
            alloc: self.alloc,
            module: self.module,
            who: self.who,
            count: self.count,
            store: self.store.copy()?,
            crew: self.crew.copy(alloc)?,
            handlers: self.handlers,
            clock: self.clock,
            events: self.events,
            last_thread: self.last_thread,
            end: self.end,
            trap_frames: Frames::new(self.trap_frames.list()?),
        })
    }

    fn finish(&mut self, thread: u16)
        requires { IsTaken self.old.crew thread }
        ensures state { state_of self.new ≡ stopped_thread (state_of self.old) thread Ends }
        ensures same_module { self.new.«module» ≡ self.old.«module» }
        ensures store { self.new.store ≡ self.old.store }
    {
        self.crew.end(thread);
        if is_all_over(&self.crew) {
            self.end = End::Finished;
        }
    }
}

#[tactic(auto, using(crate::proofs::AllEnded::over_more, crate::proofs::AllEnded::not_over))]
fn is_all_over(crew: &Crew<Waiting<'_>>) -> bool
    ensures { result ≡ all_over crew.now.threads }
{
    for t in 0..crew.made() {
        if crew.status(t) != Status::Ended {
            return false;
        }
    }
    true
}
