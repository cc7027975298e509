// Items that are done over a group that goes on try by try.
ghost use Rattle.std.specs.Prelude.{◌≡◌, ℕ, ◌+◌, ◌<◌, ◌≤◌, ◌^◌, All, IfOk, OnOk, false, length, sum_by};
ghost use Rattle.schedule_text.specs.Schedule.{IsInRange};
ghost use Rattle.group_record.specs.Live.{IsNoRun};
ghost use Rattle.group_record.specs.Run.{after_item, after_items, attempt, run_attempts};
ghost use Rattle.play_command.specs.inside.Counts.{HasRoomToCount, counted_of, counted_tries};
ghost use Rattle.play_command.specs.inside.Playing.{GoesOnBy, IsUnderWay, StopsAtItem};

use crate::told::Told;
use fri_bytes::Bytes;
use group_record::{LiveGroup, Tried};
use schedule_text::Item;
use std::alloc::AllocError;

// One try of a thread of process `p`, whose event is spelled in `bytes`. True comes where its log had no room for the event.
fn attempt_once(
    live: &mut LiveGroup<'_>,
    names: &[Bytes],
    p: u32,
    thread: u16,
    told: &mut Told,
    bytes: &mut Vec<u8>,
) -> Result<bool, AllocError>
    requires under_way { IsUnderWay names.now live.old }
    requires process { p < length names.now }
    requires counts { HasRoomToCount 1 told.old }
    ensures goes { IfOk result (λ full. (number : ℕ) → GoesOnBy names.now (λ group. attempt group number p thread) live.old told.old live.new told.new full) }
    ensures counted { OnOk result (counted_of told.new ≤ counted_of told.old + 1) }
{
    group_record::laws::live_groups();
    match live.attempt(p, thread, bytes)? {
        Tried::Idle => {
            told.idle += 1;
            Ok(false)
        }
        Tried::Had(entry) => {
            told.event(names[p as usize].as_slice(), &entry)?;
            Ok(false)
        }
        Tried::Full => Ok(true),
    }
}

// So many tries, up to one for whose event the log had no room.
fn attempt_all(
    live: &mut LiveGroup<'_>,
    names: &[Bytes],
    p: u32,
    thread: u16,
    times: u32,
    told: &mut Told,
    bytes: &mut Vec<u8>,
) -> Result<bool, AllocError>
    requires under_way { IsUnderWay names.now live.old }
    requires process { p < length names.now }
    requires counts { HasRoomToCount times told.old }
    ensures goes { IfOk result (λ full. (number : ℕ) → GoesOnBy names.now (λ group. run_attempts group number p thread times) live.old told.old live.new told.new full) }
    ensures counted { OnOk result (counted_of told.new ≤ counted_of told.old + times) }
{
    for _ in 0..times {
        if attempt_once(live, names, p, thread, told, bytes)? {
            return Ok(true);
        }
    }
    Ok(false)
}

// Does an item that is not `run`.
fn act(
    live: &mut LiveGroup<'_>,
    names: &[Bytes],
    item: &Item,
    told: &mut Told,
) -> Result<(), AllocError>
    requires under_way { IsUnderWay names.now live.old }
    requires in_range { IsInRange (length names.now) item.now }
    requires other { IsNoRun item.now }
    requires counts { HasRoomToCount 1 told.old }
    ensures goes { OnOk result ((number : ℕ) → GoesOnBy names.now (λ group. after_item group number item.now) live.old told.old live.new told.new false) }
    ensures counted { OnOk result (counted_of told.new ≡ counted_of told.old + 1) }
{
    group_record::laws::live_groups();
    if live.act(item)? {
        told.acted += 1;
    } else {
        told.idle += 1;
    }
    Ok(())
}

/// Does an item. True comes where a log had no room for an event of it, which was not made.
pub(crate) fn perform(
    live: &mut LiveGroup<'_>,
    names: &[Bytes],
    item: &Item,
    told: &mut Told,
    bytes: &mut Vec<u8>,
) -> Result<bool, AllocError>
    requires under_way { IsUnderWay names.now live.old }
    requires in_range { IsInRange (length names.now) item.now }
    requires counts { HasRoomToCount (counted_tries item.now) told.old }
    ensures goes { IfOk result (λ full. (number : ℕ) → GoesOnBy names.now (λ group. after_item group number item.now) live.old told.old live.new told.new full) }
    ensures counted { OnOk result (counted_of told.new ≤ counted_of told.old + counted_tries item.now) }
{
    match item {
        Item::Run {
            process,
            thread,
            times,
        } => attempt_all(live, names, *process, *thread, *times, told, bytes),
        _ => {
            act(live, names, item, told)?;
            Ok(false)
        }
    }
}

/// Does all items of a schedule, and tells the number of the item, from 1, for an event of which a log had no room.
pub(crate) fn perform_all(
    live: &mut LiveGroup<'_>,
    names: &[Bytes],
    items: &[Item],
    told: &mut Told,
    bytes: &mut Vec<u8>,
) -> Result<Option<u64>, AllocError>
    requires under_way { IsUnderWay names.now live.old }
    requires in_range { All (IsInRange (length names.now)) items.now }
    requires counts { HasRoomToCount (sum_by counted_tries items.now) told.old }
    ensures { IfOk result (λ full. StopsAtItem names.now (λ group. after_items group 1 items.now) live.old told.old live.new told.new full) }
{
    let mut number = 0;
    for item in items {
        number += 1;
        if perform(live, names, item, told, bytes)? {
            return Ok(Some(number));
        }
    }
    Ok(None)
}
