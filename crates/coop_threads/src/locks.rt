// The locks that are held.
ghost use Rattle.std.specs.Prelude.{◌≡◌, ◌↔◌, IfOk, OnOk, OnErr, Some, None, IsTrue};
ghost use Rattle.std.specs.Bool.{OnTrue, OnFalse};
ghost use Rattle.std.specs.FinMap as map;
ghost use Rattle.coop_threads.specs.Locks.{grip_of, holders_after};

use crate::grip::Grip;
use std::alloc::{AllocError, Global};
use std::collections::BTreeMap;
use std::marker::Model;

// The thread that holds each lock that is held, by their numbers.
#[derive(Drop)]
pub(crate) struct Locks {
    holders: BTreeMap<u32, u16>,
}

impl Model for Locks {
    ghost use Rattle.std.specs.Ordering.{nat_cmp};
    ghost use Rattle.std.specs.FinMap as map;
    ghost use Rattle.std.specs.Coded.{coded_ℕ};
    ghost use Rattle.std.specs.Prelude.{ℕ};

    ghost Value = { map.FinMap nat_cmp ℕ };

    ghost coded = { map.code coded_ℕ coded_ℕ };

    ghost view = { λ locks. map.from_entries locks.holders.entries };
}

impl Locks {
    pub(crate) fn new(alloc: Global) -> Locks
        ensures { result ≡ map.empty }
    {
        Locks {
            holders: BTreeMap::new(alloc),
        }
    }

    pub(crate) fn holder(&self, lock: u32) -> Option<u16>
        ensures { result ≡ map.get self.now lock }
    {
        self.holders.get(&lock).copied()
    }

    // The thread asks for the lock.
    pub(crate) fn lock(&mut self, lock: u32, thread: u16) -> Result<Grip, AllocError>
        ensures grip { IfOk result (λ grip. grip ≡ grip_of (map.get self.old lock) thread) }
        ensures ok { OnOk result (self.new ≡ holders_after self.old lock thread (map.get self.old lock)) }
        ensures err { OnErr result (self.new ≡ self.old) }
        ensures wanting { OnErr result (map.get self.old lock ≡ None) }
    {
        match self.holder(lock) {
            Some(holder) if holder == thread => Ok(Grip::Already),
            Some(holder) => Ok(Grip::Held(holder)),
            None => {
                self.holders.insert(lock, thread)?;
                Ok(Grip::Got)
            }
        }
    }

    // The thread gives the lock back, where it holds it.
    pub(crate) fn unlock(&mut self, lock: u32, thread: u16) -> bool
        ensures held { IsTrue result ↔ (map.get self.old lock ≡ Some thread) }
        ensures freed { OnTrue result (self.new ≡ map.remove self.old lock) }
        ensures kept { OnFalse result (self.new ≡ self.old) }
    {
        if self.holder(lock) != Some(thread) {
            return false;
        }
        self.holders.remove(&lock);
        true
    }

    pub(crate) fn copy(&self) -> Result<Locks, AllocError>
        ensures { IfOk result (λ copy. copy ≡ self.now) }
    {
        Ok(Locks {
            holders: self.holders.clone()?,
        })
    }
}
