// How the world around a process answers its calls.
ghost use Rattle.std.specs.Prelude.{◌≡◌, ◌<◌, option_map};
ghost use Rattle.guest_process.specs.Answers.{replies_with};
ghost use Rattle.guest_process.specs.Live.{cut_datagram, drawn_of, wall_time_at_waking};
ghost use Rattle.group_world.specs.World.{process_count};
ghost use Rattle.group_record.specs.inside.Around.{answer_by, env_of, seen_datagram, world_gives};

use group_world::{Front, World};
use guest_process::{Need, is_due};
use lamport_tag::Tag;
use lib_calls::{Call, Kind, NONE_THERE};
use std::marker::Model;

/// The answer to a call: its reply, the bytes that come in, which are lent, and the tag of the datagram that is taken.
#[derive(Drop)]
pub(crate) struct Answer<'a> {
    pub(crate) reply: u64,
    pub(crate) incoming: &'a [u8],
    pub(crate) tag: Option<Tag>,
}

impl<'a> Model for Answer<'a> {
    ghost use Rattle.lib_calls.specs.Answer.{Answer as AnswerOf};

    ghost Value = { AnswerOf };

    ghost view = { λ a. record { reply = a.reply; incoming = a.incoming.now; tag = a.tag } };
}

impl<'a> Answer<'a> {
    // A reply alone.
    fn plain(reply: u64) -> Answer<'a>
        ensures { result ≡ replies_with reply }
    {
        Answer {
            reply,
            incoming: &[],
            tag: None,
        }
    }
}

/// The answer to a call of process `p`, where it is given now.
#[inline(always)]
pub(crate) fn answer_now<'a>(
    need: Need,
    call: &Call,
    world: &'a World,
    p: u32,
) -> Option<Answer<'a>>
    requires { p < process_count world.now }
    ensures { result ≡ answer_by need call.now (process_count world.now) (env_of world.now p) }
{
    match need {
        Need::Fixed(reply) => Some(Answer::plain(reply)),
        Need::Blocked => None,
        Need::World => from_world(call, world, p),
    }
}

// What the world answers, where it answers now.
fn from_world<'a>(call: &Call, world: &'a World, p: u32) -> Option<Answer<'a>>
    requires { p < process_count world.now }
    ensures { result ≡ world_gives call.now (process_count world.now) (env_of world.now p) }
{
    match call.kind {
        Kind::Now => Some(Answer::plain(world.time(p))),
        Kind::SleepUntil => waking(call.a0, world.time(p)),
        Kind::Random => drawn(call.a1, world.pool(p)),
        Kind::Recv => taken(call.a1, world.front(p)),
        Kind::TryRecv => {
            let found = taken(call.a1, world.front(p));
            Some(found.unwrap_or(Answer::plain(NONE_THERE)))
        }
        _ => None,
    }
}

// The wall time, where a thread wakes that sleeps until then.
fn waking<'a>(until: u64, time: u64) -> Option<Answer<'a>>
    ensures { result ≡ wall_time_at_waking until time }
{
    if !is_due(until, time) {
        return None;
    }
    Some(Answer::plain(time))
}

// The first of the random bytes that are left, where there are so many.
fn drawn(count: u64, pool: &[u8]) -> Option<Answer<'_>>
    ensures { result ≡ drawn_of count pool.now }
{
    if (pool.len() as u64) < count {
        return None;
    }
    Some(Answer {
        reply: count,
        incoming: &pool[..count as usize],
        tag: None,
    })
}

// The first datagram that waits, cut to so many bytes.
fn taken<'a>(cap: u64, front: Option<Front<'a>>) -> Option<Answer<'a>>
    ensures { result ≡ option_map (cut_datagram cap) (option_map seen_datagram front.entry) }
{
    let front = front?;
    let count = front.payload.len().min(cap as usize);
    Some(Answer {
        reply: count as u64,
        incoming: &front.payload[..count],
        tag: front.tag,
    })
}
