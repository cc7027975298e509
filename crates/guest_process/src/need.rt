// Who answers a call.
ghost use Rattle.std.specs.Prelude.{◌≡◌};
ghost use Rattle.guest_process.specs.Answers.{need_of_world, need, replied};
ghost use Rattle.guest_process.specs.Meanings.{plain_need};
ghost use Rattle.guest_process.specs.inside.Meanings.{state_of};

use crate::body::Body;
use crate::threads::narrow;
use lib_calls::{Call, Kind, REFUSED, good_arguments};

/// What the answer to a pending call depends on.
#[derive(Clone, Copy, Drop)]
pub enum Need {
    /// Process and call determine the reply.
    Fixed(u64),
    /// No answer is given now.
    Blocked,
    /// The world around the process answers.
    World,
}

impl<'m> Body<'m> {
    /// What the answer to a call of the thread depends on.
    pub(crate) fn need(&self, thread: u16, call: &Call) -> Need
        ensures { result ≡ plain_need (need call.now.kind (state_of self.now) thread call.now) }
    {
        match call.kind {
            Kind::Begin | Kind::Exit | Kind::Note | Kind::Yield => Need::Fixed(0),
            Kind::Print => self.replied(call, call.a1),
            Kind::Now | Kind::SleepUntil => Need::World,
            Kind::Random | Kind::Recv | Kind::TryRecv => self.asked(call),
            Kind::Send => self.replied(call, call.a2),
            Kind::Me => Need::Fixed(u64::from(self.who)),
            Kind::Spawn => self.spawned(narrow(call.a0)),
            Kind::Join => self.joined(thread, narrow(call.a0)),
            Kind::Lock => self.locked(narrow(call.a0), thread),
            Kind::Unlock => self.unlocked(narrow(call.a0), thread),
            Kind::OnSignal => self.handled(narrow(call.a0), narrow(call.a1)),
            Kind::Thread => Need::Fixed(u64::from(thread)),
        }
    }

    // The reply to a call that the process answers so where its arguments are good.
    fn replied(&self, call: &Call, reply: u64) -> Need
        ensures { result ≡ plain_need (replied (state_of self.now) call.now reply) }
    {
        if good_arguments(call, self.store.memory()) {
            Need::Fixed(reply)
        } else {
            Need::Fixed(REFUSED)
        }
    }

    // What the answer depends on to a call that the world answers where its arguments are good.
    fn asked(&self, call: &Call) -> Need
        ensures { result ≡ plain_need (need_of_world (state_of self.now) call.now) }
    {
        if good_arguments(call, self.store.memory()) {
            Need::World
        } else {
            Need::Fixed(REFUSED)
        }
    }
}
