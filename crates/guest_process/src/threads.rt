// How threads wait for each other, and the locks that they hold.
ghost use Rattle.std.specs.Prelude.{◌≡◌, OnOk, slice_get};
ghost use Rattle.coop_threads.specs.Crew.{status_of};
ghost use Rattle.guest_process.specs.Answers.{after_need, joined, locked, narrow, unlocked};
ghost use Rattle.guest_process.specs.Meanings.{plain_need};
ghost use Rattle.guest_process.specs.inside.Meanings.{state_of};

use crate::body::Body;
use crate::need::Need;
use coop_threads::Status;
use lib_calls::REFUSED;
use std::alloc::AllocError;

/// An argument of 32 bits.
pub(crate) fn narrow(bits: u64) -> u32
    ensures { result ≡ narrow bits }
{
    (bits % 0x1_0000_0000) as u32
}

impl<'m> Body<'m> {
    /// What the answer depends on where the thread joins the one with this number.
    pub(crate) fn joined(&self, thread: u16, number: u32) -> Need
        ensures { result ≡ plain_need (joined (state_of self.now) thread number) }
    {
        if number == u32::from(thread) {
            return Need::Fixed(REFUSED);
        }
        match self.status(number) {
            Status::Unknown => Need::Fixed(REFUSED),
            Status::Live | Status::Taken => Need::Blocked,
            Status::Ended => Need::Fixed(0),
        }
    }

    // How the thread with this number stands.
    #[tactic(auto, using(crate::proofs::CrewViews::unknown_past))]
    fn status(&self, number: u32) -> Status
        ensures { result ≡ status_of (slice_get (state_of self.now).crew.threads number) }
    {
        if number < u32::from(self.crew.made()) {
            self.crew.status(number as u16)
        } else {
            Status::Unknown
        }
    }

    /// What the answer depends on where the thread asks for the lock m.
    pub(crate) fn locked(&self, m: u32, thread: u16) -> Need
        ensures { result ≡ plain_need (locked (state_of self.now) m thread) }
    {
        match self.crew.holder(m) {
            None => Need::Fixed(0),
            Some(holder) if holder == thread => Need::Fixed(REFUSED),
            Some(_) => Need::Blocked,
        }
    }

    /// The reply where the thread gives the lock m back.
    pub(crate) fn unlocked(&self, m: u32, thread: u16) -> Need
        ensures { result ≡ plain_need (unlocked (state_of self.now) m thread) }
    {
        match self.crew.holder(m) {
            Some(holder) if holder == thread => Need::Fixed(0),
            _ => Need::Fixed(REFUSED),
        }
    }

    /// The thread asks for the lock m, which it then holds if it was free.
    #[tactic(auto, using(crate::proofs::CrewViews::lock_taken))]
    pub(crate) fn lock(&mut self, m: u32, thread: u16) -> Result<(), AllocError>
        ensures state { OnOk result (state_of self.new ≡ after_need (locked (state_of self.old) m thread) (state_of self.old)) }
        ensures same_module { self.new.«module» ≡ self.old.«module» }
        ensures store { self.new.store ≡ self.old.store }
    {
        self.crew.lock(m, thread)?;
        Ok(())
    }

    /// The thread gives the lock m back, if it holds it.
    #[tactic(auto, using(crate::proofs::CrewViews::lock_freed, crate::proofs::CrewViews::lock_kept))]
    pub(crate) fn unlock(&mut self, m: u32, thread: u16)
        ensures state { state_of self.new ≡ after_need (unlocked (state_of self.old) m thread) (state_of self.old) }
        ensures same_module { self.new.«module» ≡ self.old.«module» }
        ensures store { self.new.store ≡ self.old.store }
    {
        self.crew.unlock(m, thread);
    }
}
