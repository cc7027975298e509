// The threads of a process.
ghost use Rattle.std.specs.Prelude.{Err, ◌≡◌, ◌↔◌, ◌≤◌, ◌<◌, ◌++◌, ◌∷◌, [], length, slice_get, IfOk, IfErr, IfNone, OnOk, OnErr, OnSome, Some, None, IsTrue, option_copied};
ghost use Rattle.std.specs.Option.{option_copied};
ghost use Rattle.std.specs.Bool.{OnTrue, OnFalse};
ghost use Rattle.coop_threads.specs.declared.slot.Slot.TheVariants.{Kept, Lent, Over};
ghost use Rattle.coop_threads.specs.Locks.{grip_of};
ghost use Rattle.coop_threads.specs.Crew.{empty, holder_of, IsTaken, live_at, most_threads, value_not_spawned, status_of, after_lock, with_live, with_slot, after_unlock};

use crate::copy_out::CopyOut;
use crate::grip::Grip;
use crate::locks::Locks;
use crate::slot::Slot;
use crate::spawn_error::SpawnError;
use crate::status::Status;
use std::alloc::{AllocError, Global};
use std::marker::Model;
use std::mem;

/// How many threads a process makes at most.
pub const MOST_THREADS: u16 = 64;

/// The threads of a process, which are numbered from 0, and the locks that they hold.
#[derive(Drop)]
pub struct Crew<T> {
    threads: Vec<Slot<T>>,
    locks: Locks,
}

impl<T> Model for Crew<T> {
    ghost use Rattle.coop_threads.specs.Crew.{Crew as Threads, crew_code, most_threads};
    ghost use Rattle.std.specs.Prelude.{◌≤◌, length};

    ghost Value = { Threads T };

    ghost coded = { crew_code T.code };

    ghost view = { λ crew. record { threads = crew.threads.items; holders = crew.locks } };

    ghost invariant = { λ crew. length crew.threads.items ≤ most_threads };
}

impl<T> Crew<T> {
    /// No threads and no locks.
    pub fn new(alloc: Global) -> Crew<T>
        ensures { result ≡ empty }
    {
        Crew {
            threads: Vec::new(alloc),
            locks: Locks::new(alloc),
        }
    }

    /// Makes a live thread, and gives its number. `Full` comes before want of memory is looked at.
    pub fn spawn(&mut self, value: T) -> Result<u16, SpawnError<T>>
        ensures number { IfOk result (λ thread. thread ≡ length self.old.threads) }
        ensures ok { OnOk result (self.new ≡ with_live self.old value) }
        ensures full { (result ≡ Err (SpawnError.Full value)) ↔ (length self.old.threads ≡ most_threads) }
        ensures returned { IfErr result (λ e. value_not_spawned e ≡ value) }
        ensures err { OnErr result (self.new ≡ self.old) }
    {
        if self.threads.len() >= usize::from(MOST_THREADS) {
            return Err(SpawnError::Full(value));
        }
        let number = self.threads.len() as u16;
        match self.threads.push(Slot::Kept(value)) {
            Ok(()) => Ok(number),
            Err(error) => match error.value {
                Slot::Kept(value) => Err(SpawnError::NoMemory(value)),
                Slot::Lent | Slot::Over => unreachable!(),
            },
        }
    }

    /// Takes out the value of a live thread. It takes no memory, nor do `put` and `end`.
    pub fn take(&mut self, thread: u16) -> Option<T>
        ensures value { result ≡ live_at self.old thread }
        ensures some { OnSome result (self.new ≡ with_slot self.old thread Lent) }
        ensures none { IfNone result (self.new ≡ self.old) }
    {
        if self.status(thread) != Status::Live {
            return None;
        }
        match mem::replace(&mut self.threads[thread as usize], Slot::Lent) {
            Slot::Kept(value) => Some(value),
            Slot::Lent | Slot::Over => unreachable!(),
        }
    }

    /// Gives a thread whose value was taken out a value again, with which it goes on.
    pub fn put(&mut self, thread: u16, value: T)
        requires { IsTaken self.old thread }
        ensures { self.new ≡ with_slot self.old thread (Kept value) }
    {
        self.replace(thread, Slot::Kept(value));
    }

    /// Ends a thread whose value was taken out. The locks that it holds stay held.
    pub fn end(&mut self, thread: u16)
        requires { IsTaken self.old thread }
        ensures { self.new ≡ with_slot self.old thread Over }
    {
        self.replace(thread, Slot::Over);
    }

    // Puts another slot in the place of a thread whose value was taken out.
    fn replace(&mut self, thread: u16, slot: Slot<T>)
        requires { IsTaken self.old thread }
        ensures { self.new ≡ with_slot self.old thread slot }
    {
        match mem::replace(&mut self.threads[thread as usize], slot) {
            Slot::Lent => {}
            Slot::Kept(_) | Slot::Over => unreachable!(),
        }
    }

    /// The value of a live thread.
    pub fn get(&self, thread: u16) -> Option<&T>
        ensures { option_copied result ≡ live_at self.now thread }
    {
        match self.threads.get(thread as usize)? {
            Slot::Kept(value) => Some(value),
            Slot::Lent | Slot::Over => None,
        }
    }

    /// How a thread stands.
    pub fn status(&self, thread: u16) -> Status
        ensures { result ≡ status_of (slice_get self.now.threads thread) }
    {
        match self.threads.get(thread as usize) {
            None => Status::Unknown,
            Some(Slot::Kept(_)) => Status::Live,
            Some(Slot::Lent) => Status::Taken,
            Some(Slot::Over) => Status::Ended,
        }
    }

    /// How many threads were made.
    pub fn made(&self) -> u16
        ensures made { result ≡ length self.now.threads }
        ensures few { result ≤ most_threads }
    {
        self.threads.len() as u16
    }

    /// The thread asks for the lock. Memory is wanted only where the lock is free.
    pub fn lock(&mut self, lock: u32, thread: u16) -> Result<Grip, AllocError>
        ensures grip { IfOk result (λ grip. grip ≡ grip_of (holder_of self.old lock) thread) }
        ensures ok { OnOk result (self.new ≡ after_lock self.old lock thread) }
        ensures err { OnErr result (self.new ≡ self.old) }
        ensures wanting { OnErr result (holder_of self.old lock ≡ None) }
    {
        self.locks.lock(lock, thread)
    }

    /// The thread gives the lock back: whether it held it. It takes no memory.
    pub fn unlock(&mut self, lock: u32, thread: u16) -> bool
        ensures held { IsTrue result ↔ (holder_of self.old lock ≡ Some thread) }
        ensures freed { OnTrue result (self.new ≡ after_unlock self.old lock) }
        ensures kept { OnFalse result (self.new ≡ self.old) }
    {
        self.locks.unlock(lock, thread)
    }

    /// The thread that holds the lock.
    pub fn holder(&self, lock: u32) -> Option<u16>
        ensures { result ≡ holder_of self.now lock }
    {
        self.locks.holder(lock)
    }
}

impl<T: CopyOut + Drop> Crew<T> {
    /// A copy with copies of the live threads' values.
    pub fn copy(&self, alloc: Global) -> Result<Crew<T>, AllocError>
        ensures { IfOk result (λ copy. copy ≡ self.now) }
    {
        let mut threads = Vec::with_capacity(alloc, self.threads.len())?;
        for slot in &self.threads {
            threads.push(slot.copy_out()?)?;
        }
        Ok(Crew {
            threads,
            locks: self.locks.copy()?,
        })
    }
}
