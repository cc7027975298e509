// The network of a group.
ghost use Rattle.std.specs.Prelude.{◌≡◌, ◌≢◌, ◌↔◌, ℕ, ◌<◌, ◌≤◌, [], ◌++◌, length, replicate, IsTrue, IsNone, IfSome, IfOk, OnOk, OnErr, is_some, option_map};
ghost use Rattle.lossy_net.specs.Network.{Traffic, kept_sent, no_traffic, sent_by, mailbox_of, nth_of, with_sent, with_waiting, with_delivered, without_front, first_waiting, IsFirstWaiting};

use crate::endpoint::Endpoint;
use crate::shared::Shared;
use lamport_tag::{Tag, read_tag};
use std::alloc::{AllocError, Global};
use std::marker::Model;

/// The first datagram in a mailbox: its tag, where it has one, and the bytes after the tag.
#[derive(Clone, Copy)]
pub struct Front<'a> {
    pub tag: Option<Tag>,
    pub payload: &'a [u8],
}

/// A datagram that was sent into the group: for which process, and all its bytes, tag and payload.
#[derive(Clone, Copy)]
pub struct SentBytes<'a> {
    pub to: u32,
    pub bytes: &'a [u8],
}

/// What the processes of a group sent into the group, and the datagrams that wait for each of them.
/// Contracts see a list with the traffic of each process at the process's number.
///
/// A datagram may be delivered any number of times. Its bytes are kept once: a mailbox refers to them.
#[derive(Drop)]
pub struct Net {
    alloc: Global,
    count: u32,
    endpoints: Vec<Endpoint>,
}

impl Model for Net {
    ghost use Rattle.std.specs.Prelude.{◌≡◌, List, length};
    ghost use Rattle.lossy_net.specs.Network.{Traffic};
    ghost use Rattle.lossy_net.specs.inside.Addressed.{IsSentIntoGroup};

    ghost Value = { List Traffic };

    ghost view = { λ n. n.endpoints.items };

    ghost invariant = { λ n. (n.count ≡ length n.endpoints.items) × IsSentIntoGroup n.endpoints.items };
}

impl Net {
    /// The network of a group of `count` processes, none of which has sent anything.
    pub fn new(alloc: Global, count: u32) -> Result<Net, AllocError>
        ensures { IfOk result (λ net. net ≡ replicate count no_traffic) }
    {
        let mut endpoints = Vec::new(alloc);
        for _ in 0..count {
            endpoints.push(Endpoint::new(alloc))?;
        }
        Ok(Net {
            alloc,
            count,
            endpoints,
        })
    }

    /// Keeps a datagram that `p` sent to `to`, which is the tag and the payload behind it. It waits nowhere until it is
    /// delivered.
    pub fn add_sent(
        &mut self,
        p: u32,
        to: u32,
        tag: &[u8],
        payload: &[u8],
    ) -> Result<(), AllocError>
        requires sender { p < length self.old }
        requires receiver { to < length self.old }
        ensures ok { OnOk result (self.new
            ≡ with_sent self.old p (record { to = to; bytes = tag.now ++ payload.now })) }
        ensures err { OnErr result (self.new ≡ self.old) }
        ensures processes { length self.new ≡ length self.old }
    {
        let bytes = Shared::joined(self.alloc, tag, payload)?;
        self.endpoints[p as usize].add_sent(to, bytes)
    }

    /// The nth datagram that `p` sent, from 1, as it would be delivered. The bytes are those that are kept.
    pub fn sent(&self, p: u32, n: u64) -> Option<SentBytes<'_>>
        requires { p < length self.now }
        ensures { option_map kept_sent result ≡ nth_of (sent_by self.now p) n }
    {
        let datagram = self.endpoints[p as usize].nth_sent(n)?;
        Some(SentBytes {
            to: datagram.to,
            bytes: datagram.bytes.as_slice(),
        })
    }

    /// Puts the nth datagram that `p` sent, from 1, at the end of its receiver's mailbox. False where
    /// there is no such datagram.
    pub fn deliver(&mut self, p: u32, n: u64) -> Result<bool, AllocError>
        requires { p < length self.old }
        ensures found { IfOk result (λ found. IsTrue found
            ↔ ((1 ≤ n) × (n ≤ length (sent_by self.old p)))) }
        ensures value { IfOk result (λ found. found ≡ is_some (nth_of (sent_by self.old p) n)) }
        ensures ok { OnOk result (self.new ≡ with_delivered self.old (nth_of (sent_by self.old p) n)) }
        ensures err { OnErr result (self.new ≡ self.old) }
        ensures memory { OnErr result (IsTrue (is_some (nth_of (sent_by self.old p) n))) }
        ensures processes { length self.new ≡ length self.old }
    {
        let Some(datagram) = self.endpoints[p as usize].nth_sent(n) else {
            return Ok(false);
        };
        let to = datagram.to;
        let bytes = datagram.bytes.share()?;
        self.endpoints[to as usize].add_waiting(bytes)?;
        Ok(true)
    }

    /// Puts bytes that no process sent at the end of the mailbox of `p`.
    pub fn inject(&mut self, p: u32, bytes: &[u8]) -> Result<(), AllocError>
        requires { p < length self.old }
        ensures ok { OnOk result (self.new ≡ with_waiting self.old p bytes.now) }
        ensures err { OnErr result (self.new ≡ self.old) }
        ensures processes { length self.new ≡ length self.old }
    {
        let bytes = Shared::new(self.alloc, bytes)?;
        self.endpoints[p as usize].add_waiting(bytes)
    }

    /// The first datagram in the mailbox of `p`, or None where the mailbox is empty. The payload is a
    /// piece of the kept bytes.
    pub fn front(&self, p: u32) -> Option<Front<'_>>
        requires { p < length self.now }
        ensures none { IsNone result ↔ (mailbox_of self.now p ≡ []) }
        ensures some { IfSome result (λ front. IsFirstWaiting self.now p front.tag front.payload.now) }
        ensures value { option_map (λ front. (front.tag, front.payload.now)) result
            ≡ first_waiting self.now p }
    {
        let datagram = self.endpoints[p as usize].front()?;
        match read_tag(datagram, self.count) {
            Some((tag, payload)) => Some(Front {
                tag: Some(tag),
                payload,
            }),
            None => Some(Front {
                tag: None,
                payload: datagram,
            }),
        }
    }

    /// Takes the first datagram out of the mailbox of `p`.
    pub fn pop(&mut self, p: u32)
        requires process { p < length self.old }
        requires waits { mailbox_of self.old p ≢ [] }
        ensures value { self.new ≡ without_front self.old p }
        ensures processes { length self.new ≡ length self.old }
    {
        self.endpoints[p as usize].pop();
    }
}
