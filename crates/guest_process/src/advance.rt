// The event of a legal entry.
ghost use Rattle.std.specs.Prelude.{◌≡◌, ◌+◌, ◌<◌, ◌^◌, IsTrue, OnOk, None, Some, ℕ};
ghost use Rattle.coop_threads.specs.Crew.{IsTaken};
ghost use Rattle.lib_calls.specs.Answer.{answer_of};
ghost use Rattle.lib_calls.specs.Effects.{is_answer};
ghost use Rattle.lib_calls.specs.Entry.{entry_of};
ghost use Rattle.wasm_types.specs.Modules.{module_of};
ghost use Rattle.wasm_step.specs.Burst.{burst};
ghost use Rattle.wasm_store.specs.Suits.{SuitsModule};
ghost use Rattle.wasm_step.specs.Strand.{IsHandler};
ghost use Rattle.guest_process.specs.inside.Advancing.{acted_by_entry, thread_gone_on};
ghost use Rattle.guest_process.specs.Answers.{with_answer};
ghost use Rattle.guest_process.specs.GoesOn.{process_after_burst, instruction_budget, handler as handler_of};
ghost use Rattle.guest_process.specs.Legal.{reason};
ghost use Rattle.guest_process.specs.Next.{next};
ghost use Rattle.guest_process.specs.inside.Meanings.{BodyInvariant, state_of};
ghost use Rattle.guest_process.specs.Sound.{StandsAtKind};
ghost use Rattle.guest_process.specs.State.{awaits_event};

use crate::answer::{answered, entered, handler, has_room};
use crate::body::Body;
use crate::calls::ends_process;
use crate::threads::narrow;
use crate::waiting::Waiting;
use lib_calls::{EntryView, Kind, write_back};
use std::alloc::AllocError;
use wasm_step::Strand;
use wasm_types::Trap;

impl<'m> Body<'m> {
    /// Makes the event of a legal entry.
    pub(crate) fn advance(&mut self, entry: &EntryView<'_>) -> Result<(), AllocError>
        requires process { BodyInvariant self.old }
        requires legal { reason (state_of self.old) (entry_of entry.now) ≡ None }
        requires few { self.old.events < 2 ^ 61 }
        ensures state { OnOk result (state_of self.new ≡ next (state_of self.old) (entry_of entry.now)) }
        ensures same_module { OnOk result (self.new.«module» ≡ self.old.«module») }
        ensures suits { OnOk result (SuitsModule self.new.store) }
    {
        self.make_event(entry)?;
        self.store.begin_event(self.events + 1);
        Ok(())
    }

    // The event, but that the memory still bears its number.
    fn make_event(&mut self, entry: &EntryView<'_>) -> Result<(), AllocError>
        requires process { BodyInvariant self.old }
        requires legal { reason (state_of self.old) (entry_of entry.now) ≡ None }
        requires few { self.old.events < 2 ^ 61 }
        ensures state { OnOk result (awaits_event (state_of self.new) ≡ next (state_of self.old) (entry_of entry.now)) }
        ensures same_module { OnOk result (self.new.«module» ≡ self.old.«module») }
        ensures suits { OnOk result (SuitsModule self.new.store) }
    {
        self.act(entry)?;
        let Some(waiting) = self.crew.take(entry.thread) else {
            unreachable!();
        };
        self.clock = entry.clock;
        self.events += 1;
        self.last_thread = Some(entry.thread);
        if ends_process(waiting.call.kind) {
            self.exit(entry.thread, waiting.call.a0);
            return Ok(());
        }
        self.go_on(waiting, entry)?;
        Ok(())
    }

    // Does what the answer does, but for the end of a thread that calls `exit`.
    fn act(&mut self, entry: &EntryView<'_>) -> Result<(), AllocError>
        requires same_module { module_of self.old.«module».now ≡ self.old.store.«module» }
        requires suits { SuitsModule self.old.store }
        requires answer { IsTrue (is_answer entry.now.call (answer_of (entry_of entry.now)) self.old.store.memory) }
        ensures state { OnOk result (state_of self.new ≡ acted_by_entry (state_of self.old) (entry_of entry.now)) }
        ensures same_module { OnOk result (self.new.«module» ≡ self.old.«module») }
        ensures suits { OnOk result (SuitsModule self.new.store) }
    {
        let t = entry.thread;
        match entry.call.kind {
            Kind::Spawn => self.spawn(narrow(entry.call.a0), narrow(entry.call.a1)),
            Kind::Lock => self.lock(narrow(entry.call.a0), t),
            Kind::Unlock => {
                self.unlock(narrow(entry.call.a0), t);
                Ok(())
            }
            Kind::OnSignal => {
                self.set_handler(narrow(entry.call.a0), narrow(entry.call.a1));
                Ok(())
            }
            _ => self.write(entry),
        }
    }

    // Writes what the answer does to the memory.
    fn write(&mut self, entry: &EntryView<'_>) -> Result<(), AllocError>
        requires suits { SuitsModule self.old.store }
        requires answer { IsTrue (is_answer entry.now.call (answer_of (entry_of entry.now)) self.old.store.memory) }
        ensures state { OnOk result (state_of self.new ≡ with_answer (state_of self.old) entry.now.call (answer_of (entry_of entry.now))) }
        ensures same_module { OnOk result (self.new.«module» ≡ self.old.«module») }
        ensures suits { OnOk result (SuitsModule self.new.store) }
    {
        write_back(entry, self.store.memory_mut())
    }

    // A thread that was taken out goes on after the answer to its call.
    fn go_on(&mut self, waiting: Waiting<'m>, entry: &EntryView<'_>) -> Result<(), AllocError>
        requires taken { IsTaken self.old.crew entry.now.thread }
        requires same_module { module_of self.old.«module».now ≡ self.old.store.«module» }
        requires suits { SuitsModule self.old.store }
        requires same { waiting.strand.«module» ≡ self.old.store.«module» }
        requires stands { StandsAtKind waiting.strand.«module» waiting waiting.call.kind }
        requires handlers { (signal func : ℕ) → handler_of self.old.handlers signal ≡ Some func → IsHandler self.old.store.«module» func }
        ensures state { OnOk result (state_of self.new ≡ thread_gone_on (state_of self.old) waiting.entry (entry_of entry.now)) }
        ensures same_module { OnOk result (self.new.«module» ≡ self.old.«module») }
        ensures suits { OnOk result (SuitsModule self.new.store) }
    {
        let strand = answered(waiting, entry.reply)?;
        let func = handler(&self.handlers, entry.signal);
        if !has_room(&strand, func) {
            self.trap(entry.thread, Trap::Exhausted, strand.functions()?);
            return Ok(());
        }
        let strand = entered(strand, entry.signal, func)?;
        self.run(entry.thread, strand)
    }

    // A thread that was taken out runs.
    #[tactic(auto, unfolding(crate::specs::GoesOn::instruction_budget))]
    fn run(&mut self, thread: u16, strand: Strand<'m>) -> Result<(), AllocError>
        requires taken { IsTaken self.old.crew thread }
        requires same_module { module_of self.old.«module».now ≡ self.old.store.«module» }
        requires suits { SuitsModule self.old.store }
        requires same { strand.«module» ≡ self.old.store.«module» }
        requires runs { strand.call ≡ None }
        ensures state { OnOk result (state_of self.new ≡ process_after_burst (state_of self.old) thread (burst instruction_budget strand.entry.thread self.old.store)) }
        ensures same_module { OnOk result (self.new.«module» ≡ self.old.«module») }
        ensures suits { OnOk result (SuitsModule self.new.store) }
    {
        let pause = strand.run(&mut self.store)?;
        self.stop(thread, pause);
        Ok(())
    }
}
