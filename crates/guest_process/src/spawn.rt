// How a process makes threads.
ghost use Rattle.std.specs.Prelude.{◌≡◌, ◌<◌, OnOk, Some, length, ℕ};
ghost use Rattle.coop_threads.specs.Crew.{most_threads};
ghost use Rattle.wasm_types.specs.Modules.{module_of};
ghost use Rattle.wasm_step.specs.Strand.{IsHandler};
ghost use Rattle.guest_process.specs.Answers.{after_need, spawnable, spawned, spawned_at_index};
ghost use Rattle.guest_process.specs.Meanings.{plain_need};
ghost use Rattle.guest_process.specs.inside.Meanings.{state_of};

use crate::body::Body;
use crate::need::Need;
use crate::waiting::beginning;
use coop_threads::{MOST_THREADS, SpawnError};
use lib_calls::REFUSED;
use std::alloc::AllocError;
use wasm_step::Strand;

impl<'m> Body<'m> {
    /// The reply where a thread is to begin with the function of this table index.
    #[tactic(auto, using(crate::proofs::MadeThreads::spawned_reply, crate::proofs::MadeThreads::not_spawned))]
    pub(crate) fn spawned(&self, index: u32) -> Need
        ensures { (arg : ℕ) → result ≡ plain_need (spawned (state_of self.now) index arg) }
    {
        match self.spawnable(index) {
            Some(_) => Need::Fixed(u64::from(self.crew.made())),
            None => Need::Fixed(REFUSED),
        }
    }

    /// Makes a thread that begins with the function of this table index and is given this argument, where
    /// that may be.
    #[tactic(auto, using(crate::proofs::MadeThreads::found_own, crate::proofs::MadeThreads::has_room, crate::proofs::MadeThreads::spawned_so, crate::proofs::MadeThreads::none_made))]
    pub(crate) fn spawn(&mut self, index: u32, arg: u32) -> Result<(), AllocError>
        requires same_module { module_of self.old.«module».now ≡ self.old.store.«module» }
        ensures state { OnOk result (state_of self.new ≡ after_need (spawned (state_of self.old) index arg) (state_of self.old)) }
        ensures same_module { OnOk result (self.new.«module» ≡ self.old.«module») }
        ensures store { OnOk result (self.new.store ≡ self.old.store) }
    {
        match self.spawnable(index) {
            Some(func) => self.begin(func, arg),
            None => Ok(()),
        }
    }

    // The function of this table index, where one more thread may be made and begin with it.
    fn spawnable(&self, index: u32) -> Option<u32>
        ensures { result ≡ spawnable (state_of self.now) index }
    {
        if self.crew.made() < MOST_THREADS {
            self.store.handler_at(index)
        } else {
            None
        }
    }

    // Makes a thread that begins with this function.
    #[tactic(auto, using(crate::proofs::MadeThreads::begun))]
    fn begin(&mut self, func: u32, arg: u32) -> Result<(), AllocError>
        requires room { length self.old.crew.threads < most_threads }
        requires same_module { module_of self.old.«module».now ≡ self.old.store.«module» }
        requires handler { IsHandler (module_of self.old.«module».now) func }
        ensures state { OnOk result (state_of self.new ≡ after_need (spawned_at_index (state_of self.old) arg (Some func)) (state_of self.old)) }
        ensures same_module { OnOk result (self.new.«module» ≡ self.old.«module») }
        ensures store { OnOk result (self.new.store ≡ self.old.store) }
    {
        let strand = Strand::new(self.alloc, self.module, func, arg)?;
        match self.crew.spawn(beginning(strand)) {
            Ok(_) => Ok(()),
            Err(SpawnError::Full(_)) => unreachable!(),
            Err(SpawnError::NoMemory(_)) => Err(AllocError),
        }
    }
}
