// The items of a schedule that make no event.
ghost use Rattle.std.specs.Prelude.{◌≡◌, ◌<◌, ◌≤◌, ◌&&◌, not, IfOk, OnOk, length, if◌then◌else◌};
ghost use Rattle.schedule_text.specs.Schedule.{IsInRange};
ghost use Rattle.group_world.specs.History.{Kill};
ghost use Rattle.group_world.specs.World.{process_count, surroundings_of, with_act};
ghost use Rattle.group_record.specs.Run.{is_running_process};
ghost use Rattle.group_record.specs.inside.Recorded.{item_acts, after_act, is_not_killed};

use crate::member::Member;
use group_world::World;
use guest_process::End;
use schedule_text::Item;
use std::alloc::AllocError;

/// Does an item that is not `run`. False where the item was idle.
pub(crate) fn act(
    item: &Item,
    members: &[Member<'_>],
    world: &mut World,
) -> Result<bool, AllocError>
    requires around { length members.now ≤ process_count world.old }
    requires in_range { IsInRange (length members.now) item.now }
    ensures acts { IfOk result (λ acted. acted ≡ item_acts members.now world.old item.now) }
    ensures world { OnOk result (world.new ≡ after_act members.now world.old item.now) }
    ensures size { process_count world.new ≡ process_count world.old }
{
    match item {
        Item::Run { .. } => Ok(false),
        Item::Deliver { process, number } => world.deliver(*process, *number),
        Item::Inject { process, bytes } => {
            world.inject(*process, bytes.as_slice())?;
            Ok(true)
        }
        Item::Clock { process, value } => {
            world.set_time(*process, value.cast_unsigned());
            Ok(true)
        }
        Item::Random { process, bytes } => {
            world.add_random(*process, bytes.as_slice())?;
            Ok(true)
        }
        Item::Signal { process, signal } => {
            world.raise(*process, *signal);
            Ok(true)
        }
        Item::Kill { process } => Ok(kill(*process, members, world)),
    }
}

// Kills process p, where it runs and was not killed.
fn kill(p: u32, members: &[Member<'_>], world: &mut World) -> bool
    requires around { p < process_count world.old }
    requires process { p < length members.now }
    ensures acts { result ≡ is_not_killed members.now world.old p }
    ensures world { world.new ≡ (if is_not_killed members.now world.old p then with_act world.old (Kill p) else world.old) }
    ensures size { process_count world.new ≡ process_count world.old }
{
    if runs(&members[p as usize]) && !world.is_killed(p) {
        world.kill(p);
        true
    } else {
        false
    }
}

// Whether the process of a member runs.
fn runs(member: &Member<'_>) -> bool
    ensures { result ≡ is_running_process member.now.process }
{
    match &member.process {
        Some(process) => process.end() == End::Running,
        None => false,
    }
}
