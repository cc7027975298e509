// The replay of one log to its end.
ghost use Rattle.std.specs.Prelude.{◌≡◌, OnOk, IfOk};
ghost use Rattle.lib_calls.specs.Entry.{entry_of};
ghost use Rattle.lib_calls.specs.Traffic.{printed, prints};
ghost use Rattle.guest_process.specs.declared.verdict.Verdict.{Verdict as VerdictOf};
ghost use Rattle.guest_process.specs.Replay.{left_over};
ghost use Rattle.proc_replay.specs.Course.{TellsVerdict, entries_ahead};
ghost use Rattle.proc_replay.specs.Replaying.{turn};
ghost use Rattle.group_state.specs.inside.Turns.{EndsAtReplay, kept_after};
ghost use Rattle.group_state.specs.Report.{accepted_in};
ghost use Rattle.group_state.specs.inside.Tallying.{AreNewEvents, HasTallyRoomFor, with_all_accepted};

use crate::tally::Tally;
use fri_bytes::Bytes;
use guest_process::Verdict;
use lib_calls::{EntryView, printed};
use proc_replay::{Replayer, Turn};
use std::alloc::AllocError;

// With images appends what an event prints.
fn push_printed(out: &mut Bytes, images: bool, entry: &EntryView<'_>) -> Result<(), AllocError>
    ensures { OnOk result (out.new ≡ kept_after images out.old (printed (entry_of entry.now))) }
{
    if images {
        out.push_all(printed(entry))?;
    }
    Ok(())
}

/// Replays a log from here to its end, and counts the datagrams of its events. With images it appends what they print.
pub(crate) fn replay_log<'m, 'a>(
    replayer: Replayer<'m, 'a>,
    tally: &mut Tally,
    images: bool,
    out: &mut Bytes,
) -> Result<Replayer<'m, 'a>, AllocError>
    requires new { AreNewEvents tally.old (accepted_in replayer) }
    requires room { HasTallyRoomFor tally.old (accepted_in replayer) }
    ensures tally { OnOk result (tally.new ≡ with_all_accepted tally.old (accepted_in replayer.entry)) }
    ensures out { OnOk result (out.new ≡ kept_after images out.old (prints (entries_ahead replayer.entry))) }
    ensures ends { IfOk result (EndsAtReplay replayer.entry) }
{
    proc_replay::laws::replays();
    let process = replayer.head().process;
    let mut replayer = replayer;
    'turns: loop {
        let (next, turn) = replayer.next_event()?;
        replayer = next;
        match turn {
            Turn::Event(entry) => {
                tally.add(process, &entry)?;
                push_printed(out, images, &entry)?;
            }
            Turn::LogEnd => return Ok(replayer),
            Turn::Diverged(..) => return Ok(replayer),
        }
    }
}

fn left_over(rest: &[u8]) -> Verdict
    ensures { result ≡ left_over rest.now }
{
    match rest.len() {
        0 => Verdict::Whole,
        count => Verdict::Left(count as u64),
    }
}

/// The verdict on a log at whose end a replay is.
pub(crate) fn verdict(replayer: &Replayer<'_, '_>) -> Verdict
    requires { (v : VerdictOf) × TellsVerdict (turn replayer.now) replayer.now.left.bytes v }
    ensures { (v : VerdictOf) → TellsVerdict (turn replayer.now) replayer.now.left.bytes v → result ≡ v }
{
    match replayer.peek() {
        Turn::Event(_) => unreachable!(),
        Turn::LogEnd => left_over(replayer.log().unread()),
        Turn::Diverged(at, why) => Verdict::Diverged(at, why),
    }
}
