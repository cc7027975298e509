// The signal that an event delivers.
ghost use Rattle.std.specs.Prelude.{◌≡◌, ◌<◌, ◌≤◌};
ghost use Rattle.lib_calls.specs.Answer.{Answer};
ghost use Rattle.guest_signals.specs.Signals.{most_signal};
ghost use Rattle.guest_process.specs.Live.{is_ready_signal as is_ready_of, lowest_signal};
ghost use Rattle.group_world.specs.World.{has_pending, process_count};
ghost use Rattle.group_record.specs.inside.Around.{handlers_at, signal_with_answer};

use group_world::World;
use guest_process::{Process, ends_process};
use guest_signals::MOST_SIGNAL;
use lib_calls::Call;

/// The signal that is delivered with the answer to a call of the thread of process p, whatever the answer
/// is: the lowest that is pending and then has a handler, or 0. None is where the call ends the process.
#[inline(always)]
pub(crate) fn signal_after(
    process: &Process<'_>,
    thread: u16,
    call: &Call,
    world: &World,
    p: u32,
) -> u8
    requires { p < process_count world.now }
    ensures { (a : Answer) → result ≡ signal_with_answer process.now thread a call.now (has_pending world.now p) }
{
    if ends_process(call.kind) {
        return 0;
    }
    lowest_ready(process, thread, world, p)
}

// The lowest signal that is pending and has a handler after the answer, or 0. At nearly all events none is pending.
#[inline(always)]
fn lowest_ready(process: &Process<'_>, thread: u16, world: &World, p: u32) -> u8
    requires { p < process_count world.now }
    ensures { (a : Answer) → result ≡ lowest_signal (is_ready_of (handlers_at process.now thread a) (has_pending world.now p)) most_signal 1 }
{
    if world.has_no_signal(p) {
        return 0;
    }
    lowest_of_all(process, thread, world, p)
}

// The same, where some signal is pending.
fn lowest_of_all(process: &Process<'_>, thread: u16, world: &World, p: u32) -> u8
    requires { p < process_count world.now }
    ensures { (a : Answer) → result ≡ lowest_signal (is_ready_of (handlers_at process.now thread a) (has_pending world.now p)) most_signal 1 }
{
    for s in 1..MOST_SIGNAL + 1 {
        if is_ready(process, thread, world, p, s) {
            return s;
        }
    }
    0
}

// Whether the signal is pending and has a handler after the answer.
fn is_ready(process: &Process<'_>, thread: u16, world: &World, p: u32, s: u8) -> bool
    requires process { p < process_count world.now }
    requires first { 1 ≤ s }
    requires last { s ≤ most_signal }
    ensures { (a : Answer) → result ≡ is_ready_of (handlers_at process.now thread a) (has_pending world.now p) s }
{
    world.is_pending(p, s) && process.handles_after(thread, s)
}
