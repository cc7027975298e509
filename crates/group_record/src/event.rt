// The event of a try, as its entry tells it.
ghost use Rattle.std.specs.Prelude.{◌≡◌, ◌<◌, ◌≤◌, ◌^◌, [], IfOk, IfSome, drop, length, option_map};
ghost use Rattle.lib_calls.specs.Entry.{IsShaped, entry_of};
ghost use Rattle.call_log.specs.Spelling.{EndsWithEntry, with_outgoing};
ghost use Rattle.call_log.specs.declared.version.Version.TheVariants.{Two};
ghost use Rattle.group_world.specs.World.{process_count};
ghost use Rattle.group_record.specs.inside.Around.{env_of};
ghost use Rattle.group_record.specs.inside.Recorded.{IsEntryOf, IsSpelledEvent, event_entry};

use crate::answer::answer_now;
use crate::signals::signal_after;
use call_log::{Version, incoming_in, put_before_outgoing};
use group_world::World;
use guest_process::Process;
use lamport_tag::next_clock;
use lib_calls::{EntryView, outgoing_length, push_outgoing};
use std::alloc::AllocError;

/// The event of a try of this thread of process `p`, without the bytes that it sends out: they are still in the memory.
/// None comes where the try is idle.
#[inline(always)]
pub(crate) fn live_event<'a>(
    process: &Process<'_>,
    thread: u16,
    world: &'a World,
    p: u32,
) -> Option<EntryView<'a>>
    requires process { p < process_count world.now }
    requires group { process.now.count ≡ process_count world.now }
    requires few { process.now.events < 2 ^ 61 }
    ensures tells { IsEntryOf process.now thread (env_of world.now p) (option_map (event_entry process.now) result) }
    ensures plain { IfSome result (λ event. event.outgoing.now ≡ []) }
{
    // What these ensure tells the proof that the event is one that its entry tells.
    guest_process::laws::one_event();
    guest_process::laws::rises();
    guest_process::laws::states_fit();
    let _ = process.events();
    let _ = world.time(p);
    if world.is_killed(p) {
        return None;
    }
    let call = process.pending(thread)?;
    let need = process.need(thread, call);
    let answer = answer_now(need, call, world, p)?;
    Some(EntryView {
        clock: next_clock(process.clock(), answer.tag),
        thread,
        signal: signal_after(process, thread, call, world, p),
        call: *call,
        reply: answer.reply,
        outgoing: &[],
        incoming: answer.incoming,
        tag: answer.tag,
    })
}

/// Spells the entry of an event of the process after one with the clock `last`, and tells where the bytes begin that it
/// sends out.
#[inline(always)]
pub(crate) fn spell_event(
    process: &Process<'_>,
    event: &EntryView<'_>,
    last: u64,
    bytes: &mut Vec<u8>,
) -> Result<usize, AllocError>
    requires shape { IsShaped (event_entry process.now event.now) }
    requires plain { event.now.outgoing.now ≡ [] }
    ensures { IfOk result (λ start. IsSpelledEvent last (event_entry process.now event.now) start bytes.new.items) }
{
    let memory = process.memory();
    let sent = outgoing_length(&event.call, memory);
    bytes.clear();
    put_before_outgoing(bytes, Version::Two, last, event, sent)?;
    let start = bytes.len();
    push_outgoing(bytes, &event.call, memory)?;
    Ok(start)
}

/// The entry of an event that was spelled, whose bytes are lent from there.
#[inline(always)]
pub(crate) fn spelled_event<'a>(
    bytes: &'a [u8],
    event: &EntryView<'_>,
    start: usize,
) -> EntryView<'a>
    requires ends { EndsWithEntry Two (entry_of event.now) bytes.now }
    requires inside { start ≤ length bytes.now }
    ensures { entry_of result ≡ with_outgoing (entry_of event.now) (drop start bytes.now) }
{
    EntryView {
        outgoing: &bytes[start..],
        incoming: incoming_in(bytes, Version::Two, event),
        ..*event
    }
}
