// The world around the processes of a group.
ghost use Rattle.std.specs.Prelude.{◌≡◌, ◌↔◌, ℕ, ◌<◌, ◌≤◌, length, false, IsTrue, IfOk, OnOk, OnErr, is_some, option_map};
ghost use Rattle.lib_calls.specs.Entry.{entry_of};
ghost use Rattle.lib_calls.specs.Traffic.{drawn as drawn_of, is_sent as is_sent_of, is_taken as is_taken_of};
ghost use Rattle.lossy_net.specs.Network.{first_waiting, kept_sent, mailbox_of, nth_of, sent_by};
ghost use Rattle.guest_signals.specs.Signals.{most_signal};
ghost use Rattle.group_world.specs.History.{Event, Deliver, Inject, Clock, Random, Signal, Kill};
ghost use Rattle.group_world.specs.World.{has_pending, new_world, sent_if, process_count, surroundings_of, took_if, with_act};

use crate::surroundings::Surroundings;
use lamport_tag::{Tag, write_tag};
use lib_calls::{EntryView, is_sent, is_taken};
use lossy_net::{Front, Net, SentBytes};
use std::alloc::{AllocError, Global};
use std::marker::Model;

/// What is on its way between the processes of a group, and what is around each of them. Contracts
/// see the network and what is around each process.
pub struct World {
    count: u32,
    net: Net,
    surroundings: Vec<Surroundings>,
}

// By hand, so that it is proved here, and not in each crate that owns one.
impl Drop for World {
    fn drop(self) {
        let Self {
            count: _count,
            net: _net,
            surroundings: _surroundings,
        } = self;
    }
}

impl Model for World {
    ghost use Rattle.std.specs.Prelude.{◌≡◌, length};
    ghost use Rattle.group_world.specs.World.{World as WorldOf};

    ghost Value = { WorldOf };

    ghost view = { λ w. record { net = w.net; surroundings = w.surroundings.items } };

    ghost invariant = { λ w. (w.count ≡ length w.net) × (length w.surroundings.items ≡ length w.net) };
}

impl World {
    /// The world around a group of `count` processes, before anything is done.
    pub fn new(alloc: Global, count: u32) -> Result<World, AllocError>
        ensures { IfOk result (λ w. w ≡ new_world count) }
    {
        let net = Net::new(alloc, count)?;
        let mut surroundings = Vec::new(alloc);
        for _ in 0..count {
            surroundings.push(Surroundings::new(alloc))?;
        }
        Ok(World {
            count,
            net,
            surroundings,
        })
    }

    /// The first datagram in the mailbox of `p`, as its tag, if it has one, and its payload; None where
    /// the mailbox is empty.
    pub fn front(&self, p: u32) -> Option<Front<'_>>
        requires { p < process_count self.now }
        ensures { option_map (λ front. (front.tag, front.payload.now)) result ≡ first_waiting self.now.net p }
    {
        self.net.front(p)
    }

    /// The nth datagram that `p` sent, from 1, as it would be delivered.
    pub fn sent(&self, p: u32, n: u64) -> Option<SentBytes<'_>>
        requires { p < process_count self.now }
        ensures { option_map kept_sent result ≡ nth_of (sent_by self.now.net p) n }
    {
        self.net.sent(p, n)
    }

    /// The random bytes that are left for `p`.
    pub fn pool(&self, p: u32) -> &[u8]
        requires { p < process_count self.now }
        ensures { result.now ≡ (surroundings_of self.now p).pool }
    {
        self.surroundings[p as usize].pool()
    }

    /// The wall time of `p`, as the bits of a signed number.
    pub fn time(&self, p: u32) -> u64
        requires { p < process_count self.now }
        ensures { result ≡ (surroundings_of self.now p).time }
    {
        self.surroundings[p as usize].time
    }

    /// Whether the signal is pending at `p`.
    pub fn is_pending(&self, p: u32, signal: u8) -> bool
        requires process { p < process_count self.now }
        requires first { 1 ≤ signal }
        requires last { signal ≤ most_signal }
        ensures { result ≡ has_pending self.now p signal }
    {
        self.surroundings[p as usize].is_pending(signal)
    }

    /// Whether no signal is pending at `p`.
    pub fn has_no_signal(&self, p: u32) -> bool
        requires { p < process_count self.now }
        ensures { IsTrue result ↔ ((signal : ℕ) → has_pending self.now p signal ≡ false) }
    {
        self.surroundings[p as usize].has_no_signal()
    }

    /// Whether `p` was killed.
    pub fn is_killed(&self, p: u32) -> bool
        requires { p < process_count self.now }
        ensures { result ≡ (surroundings_of self.now p).killed }
    {
        self.surroundings[p as usize].killed
    }

    /// An event of `p`: what it took is gone, what it sent into the group is kept, and the signal that it
    /// delivered is pending no longer.
    #[inline(always)]
    pub fn take_event(&mut self, p: u32, entry: &EntryView<'_>) -> Result<(), AllocError>
        requires process { p < process_count self.old }
        requires datagram { IsTrue (is_taken_of (entry_of entry.now)) → 1 ≤ length (mailbox_of self.old.net p) }
        requires bytes { drawn_of (entry_of entry.now) ≤ length (surroundings_of self.old p).pool }
        ensures ok { OnOk result (self.new ≡ with_act self.old (Event p (entry_of entry.now))) }
        ensures err { OnErr result (self.new ≡ self.old) }
        ensures memory { OnErr result (IsTrue (is_sent_of (process_count self.old) (entry_of entry.now))) }
        ensures size { process_count self.new ≡ process_count self.old }
    {
        self.keep_sent(p, entry)?;
        self.let_go_taken(p, entry);
        self.surroundings[p as usize].settle(entry);
        Ok(())
    }

    // Keeps the datagram that the event sent into the group, if it sent one.
    #[inline(always)]
    #[tactic(auto, using(crate::proofs::EventLemmas::sent_within))]
    fn keep_sent(&mut self, p: u32, entry: &EntryView<'_>) -> Result<(), AllocError>
        requires { p < process_count self.old }
        ensures ok { OnOk result (self.new ≡ record self.old {
          net = sent_if (is_sent_of (process_count self.old) (entry_of entry.now)) self.old.net p (entry_of entry.now);
        }) }
        ensures err { OnErr result (self.new ≡ self.old) }
        ensures memory { OnErr result (IsTrue (is_sent_of (process_count self.old) (entry_of entry.now))) }
    {
        if !is_sent(entry, self.count) {
            return Ok(());
        }
        let tag = write_tag(Tag {
            sender: p,
            clock: entry.clock,
        });
        self.net
            .add_sent(p, entry.call.a0 as u32, &tag, entry.outgoing)
    }

    // Lets the datagram go that the event took, if it took one.
    #[inline(always)]
    fn let_go_taken(&mut self, p: u32, entry: &EntryView<'_>)
        requires process { p < process_count self.old }
        requires datagram { IsTrue (is_taken_of (entry_of entry.now)) → 1 ≤ length (mailbox_of self.old.net p) }
        ensures { self.new ≡ record self.old { net = took_if (is_taken_of (entry_of entry.now)) self.old.net p } }
    {
        if is_taken(entry) {
            self.net.pop(p);
        }
    }

    /// Puts the nth datagram that `p` sent, from 1, at the end of its receiver's mailbox. False where
    /// there is no such datagram.
    pub fn deliver(&mut self, p: u32, n: u64) -> Result<bool, AllocError>
        requires { p < process_count self.old }
        ensures found { IfOk result (λ found. found ≡ is_some (nth_of (sent_by self.old.net p) n)) }
        ensures ok { OnOk result (self.new ≡ with_act self.old (Deliver p n)) }
        ensures err { OnErr result (self.new ≡ self.old) }
        ensures memory { OnErr result (IsTrue (is_some (nth_of (sent_by self.old.net p) n))) }
        ensures size { process_count self.new ≡ process_count self.old }
    {
        self.net.deliver(p, n)
    }

    /// Puts bytes from outside at the end of the mailbox of `p`.
    pub fn inject(&mut self, p: u32, bytes: &[u8]) -> Result<(), AllocError>
        requires { p < process_count self.old }
        ensures ok { OnOk result (self.new ≡ with_act self.old (Inject p bytes.now)) }
        ensures err { OnErr result (self.new ≡ self.old) }
        ensures size { process_count self.new ≡ process_count self.old }
    {
        self.net.inject(p, bytes)
    }

    /// Adds random bytes after those that are left for `p`.
    pub fn add_random(&mut self, p: u32, bytes: &[u8]) -> Result<(), AllocError>
        requires { p < process_count self.old }
        ensures ok { OnOk result (self.new ≡ with_act self.old (Random p bytes.now)) }
        ensures err { OnErr result (self.new ≡ self.old) }
        ensures memory { OnErr result (1 ≤ length bytes.now) }
        ensures size { process_count self.new ≡ process_count self.old }
    {
        self.surroundings[p as usize].add(bytes)
    }

    /// Sets the wall time of `p`, given as the bits of a signed number.
    pub fn set_time(&mut self, p: u32, time: u64)
        requires { p < process_count self.old }
        ensures value { self.new ≡ with_act self.old (Clock p time) }
        ensures size { process_count self.new ≡ process_count self.old }
    {
        self.surroundings[p as usize].time = time;
    }

    /// Makes the signal pending at `p`.
    pub fn raise(&mut self, p: u32, signal: u8)
        requires process { p < process_count self.old }
        requires first { 1 ≤ signal }
        requires last { signal ≤ most_signal }
        ensures value { self.new ≡ with_act self.old (Signal p signal) }
        ensures size { process_count self.new ≡ process_count self.old }
    {
        self.surroundings[p as usize].raise(signal);
    }

    /// Notes that `p` was killed.
    pub fn kill(&mut self, p: u32)
        requires { p < process_count self.old }
        ensures value { self.new ≡ with_act self.old (Kill p) }
        ensures size { process_count self.new ≡ process_count self.old }
    {
        self.surroundings[p as usize].killed = true;
    }
}
