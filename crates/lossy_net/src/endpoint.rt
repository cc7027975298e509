// What the network keeps for one process.
ghost use Rattle.std.specs.Prelude.{◌≡◌, ◌≢◌, [], ◌∷◌, ◌++◌, ℕ, drop, Some, None, IfSome, IfNone, OnOk, OnErr, option_map};
ghost use Rattle.lossy_net.specs.Network.{Traffic, after_sending, no_traffic, nth_of};

use crate::shared::Shared;
use std::alloc::{AllocError, Global};
use std::collections::VecDeque;
use std::marker::Model;

/// A datagram that was sent into the group.
#[derive(Drop)]
pub(crate) struct Datagram {
    pub(crate) to: u32,
    pub(crate) bytes: Shared,
}

impl Model for Datagram {
    ghost use Rattle.lossy_net.specs.Network.{Sent};

    ghost Value = { Sent };

    ghost view = { λ d. record { to = d.to; bytes = d.bytes } };
}

/// What a process sent into the group, and what waits for it.
#[derive(Drop)]
pub(crate) struct Endpoint {
    sent: Vec<Datagram>,
    waiting: VecDeque<Shared>,
}

impl Model for Endpoint {
    ghost use Rattle.lossy_net.specs.Network.{Traffic};

    ghost Value = { Traffic };

    ghost view = { λ e. record { sent = e.sent.items; waiting = e.waiting.items } };
}

impl Endpoint {
    pub(crate) fn new(alloc: Global) -> Endpoint
        ensures { result ≡ no_traffic }
    {
        Endpoint {
            sent: Vec::new(alloc),
            waiting: VecDeque::new(alloc),
        }
    }

    /// Keeps a datagram that the process sent.
    pub(crate) fn add_sent(&mut self, to: u32, bytes: Shared) -> Result<(), AllocError>
        ensures ok { OnOk result (self.new
            ≡ after_sending self.old (record { to = to; bytes = bytes })) }
        ensures err { OnErr result (self.new ≡ self.old) }
    {
        Ok(self.sent.push(Datagram { to, bytes })?)
    }

    /// The nth datagram that the process sent, from 1.
    pub(crate) fn nth_sent(&self, n: u64) -> Option<&Datagram>
        ensures { option_map (λ d. d.now) result ≡ nth_of self.now.sent n }
    {
        let before = usize::try_from(n.checked_sub(1)?).ok()?;
        self.sent.get(before)
    }

    /// Puts the bytes at the end of the mailbox.
    pub(crate) fn add_waiting(&mut self, bytes: Shared) -> Result<(), AllocError>
        ensures ok { OnOk result (self.new
            ≡ record { sent = self.old.sent; waiting = self.old.waiting ++ bytes ∷ [] }) }
        ensures err { OnErr result (self.new ≡ self.old) }
    {
        Ok(self.waiting.push_back(bytes)?)
    }

    /// The bytes of the first datagram in the mailbox.
    pub(crate) fn front(&self) -> Option<&[u8]>
        ensures some { IfSome result (λ bytes. self.now.waiting
            ≡ bytes.now ∷ drop 1 self.now.waiting) }
        ensures none { IfNone result (self.now.waiting ≡ []) }
    {
        Some(self.waiting.front()?.as_slice())
    }

    /// Takes the first datagram out of the mailbox.
    pub(crate) fn pop(&mut self)
        requires { self.old.waiting ≢ [] }
        ensures { self.new ≡ record { sent = self.old.sent; waiting = drop 1 self.old.waiting } }
    {
        let _ = self.waiting.pop_front();
    }
}
