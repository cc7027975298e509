// Whether an entry can be the next event of a process.
ghost use Rattle.std.specs.Prelude.{◌≡◌, Some, option_map};
ghost use Rattle.lib_calls.specs.Answer.{answer_of};
ghost use Rattle.lib_calls.specs.Entry.{entry_of};
ghost use Rattle.guest_process.specs.Answers.{is_possible};
ghost use Rattle.guest_process.specs.Legal.{checks_by, first_failing, reason, same_arguments};
ghost use Rattle.guest_process.specs.Meanings.{able};
ghost use Rattle.proc_replay.specs.Meanings.{refused_for};

use crate::world::{brings_nothing, is_drawn, takes_datagram};
use guest_process::{Divergence, Need, Process, ends_process, is_due};
use guest_signals::MOST_SIGNAL;
use lamport_tag::is_next_clock;
use lib_calls::{Call, EntryView, Kind, NONE_THERE, is_outgoing};

/// Whether the entry can be the process's next event, and else the first condition that fails, in the order of
/// `Divergence`. It takes no memory.
#[inline(never)]
pub fn legal(process: &Process<'_>, entry: &EntryView<'_>) -> Result<(), Divergence>
    ensures { refused_for result ≡ reason process.now (entry_of entry.now) }
{
    match process.pending(entry.thread) {
        Some(call) => judge(process, call, entry),
        None if process.has_ended() => Err(Divergence::AfterEnd),
        None => Err(Divergence::NoThread),
    }
}

// The first condition that fails at the pending call of the entry's thread.
fn judge(process: &Process<'_>, call: &Call, entry: &EntryView<'_>) -> Result<(), Divergence>
    requires { option_map (λ w. w.call) (able process.now entry.now.thread) ≡ Some call.now }
    ensures { refused_for result ≡ first_failing (checks_by call.now.kind process.now (entry_of entry.now) call.now (answer_of (entry_of entry.now))) }
{
    if entry.call.kind.number() != call.kind.number() {
        return Err(Divergence::OtherCall);
    }
    if !same_arguments(&entry.call, call) {
        return Err(Divergence::OtherArguments);
    }
    if !is_outgoing(entry.outgoing, call, process.memory()) {
        return Err(Divergence::OtherBytes);
    }
    if !is_answer(process, call, entry) {
        return Err(Divergence::OtherReply);
    }
    if !is_handled(process, call, entry) {
        return Err(Divergence::NoHandler);
    }
    if !is_next_clock(process.clock(), entry.tag, entry.clock) {
        return Err(Divergence::OtherClock);
    }
    Ok(())
}

fn same_arguments(call: &Call, pending: &Call) -> bool
    ensures { result ≡ same_arguments call.now pending.now }
{
    call.a0 == pending.a0 && (call.a1 == pending.a1 && call.a2 == pending.a2)
}

// Whether some environment gives the answer.
fn is_answer(process: &Process<'_>, call: &Call, entry: &EntryView<'_>) -> bool
    ensures { result ≡ (checks_by call.now.kind process.now (entry_of entry.now) call.now (answer_of (entry_of entry.now))).reply }
{
    match process.need(entry.thread, call) {
        Need::Fixed(reply) => entry.reply == reply && brings_nothing(entry),
        Need::World => is_possible(process, call, entry),
        Need::Blocked => false,
    }
}

// Whether some world gives the answer.
fn is_possible(process: &Process<'_>, call: &Call, entry: &EntryView<'_>) -> bool
    ensures { result ≡ is_possible call.now.kind process.now call.now (answer_of (entry_of entry.now)) }
{
    match call.kind {
        Kind::Now => brings_nothing(entry),
        Kind::SleepUntil => is_due(call.a0, entry.reply) && brings_nothing(entry),
        Kind::Random => is_drawn(call, entry),
        Kind::Recv => takes_datagram(process.count(), call, entry),
        Kind::TryRecv => {
            takes_datagram(process.count(), call, entry)
                || (entry.reply == NONE_THERE && brings_nothing(entry))
        }
        _ => false,
    }
}

// Whether the signal is none, or can be delivered after the answer.
fn is_handled(process: &Process<'_>, call: &Call, entry: &EntryView<'_>) -> bool
    requires { option_map (λ w. w.call) (able process.now entry.now.thread) ≡ Some call.now }
    ensures { result ≡ (checks_by call.now.kind process.now (entry_of entry.now) call.now (answer_of (entry_of entry.now))).handler }
{
    entry.signal == 0
        || (!ends_process(call.kind)
            && (entry.signal <= MOST_SIGNAL && process.handles_after(entry.thread, entry.signal)))
}
