// What is said of a recording.
ghost use Rattle.std.specs.Prelude.{◌≡◌, ◌≤◌, IfOk, All, length, is_some, option_map, IsTrue, Some};
ghost use Rattle.lamport_tag.specs.Limits.{most_processes};
ghost use Rattle.group_world.specs.World.{process_count, surroundings_of};
ghost use Rattle.group_record.specs.Answer.{IsSummary};
ghost use Rattle.group_record.specs.inside.Recorded.{IsSummaryOfRun, summary_line_of};

use crate::member::Member;
use crate::recorder::Recorder;
use fri_bytes::Bytes;
use guest_process::End;
use schedule_text::ProcessLine;
use std::alloc::{AllocError, Global};

/// How a process is at the end: its name, how many events it had, whether it runs and how it ended,
/// and whether it was killed.
#[derive(Drop)]
pub struct SummaryLine {
    pub name: Bytes,
    pub events: u64,
    pub end: End,
    pub killed: bool,
}

/// A line for each process, in order of their numbers, and how many tries and items acted and were idle.
#[derive(Drop)]
pub struct Summary {
    pub lines: Vec<SummaryLine>,
    pub acted: u64,
    pub idle: u64,
}

/// What is said of a group that was recorded.
pub(crate) fn summary_of(
    alloc: Global,
    processes: &[ProcessLine],
    recorder: &Recorder<'_>,
) -> Result<Summary, AllocError>
    requires members { length recorder.now.members.items ≡ length processes.now }
    requires around { process_count recorder.now.world ≡ length processes.now }
    requires few { length processes.now ≤ most_processes }
    requires present { All (λ m. IsTrue (is_some m.process)) recorder.now.members.items }
    ensures { IfOk result (IsSummaryOfRun processes.now recorder.now) }
{
    group_world::laws::by_counting();
    let mut lines = Vec::new(alloc);
    for p in 0..processes.len() {
        let killed = recorder.world.is_killed(p as u32);
        let name = processes[p].name.as_slice();
        lines.push(line(alloc, &recorder.members[p], name, killed)?)?;
    }
    Ok(Summary {
        lines,
        acted: recorder.acted,
        idle: recorder.idle,
    })
}

// The line of a process.
fn line(
    alloc: Global,
    member: &Member<'_>,
    name: &[u8],
    killed: bool,
) -> Result<SummaryLine, AllocError>
    requires { IsTrue (is_some member.now.process) }
    ensures { IfOk result (λ line. Some line ≡ option_map (summary_line_of name.now killed) member.now.process) }
{
    let Some(process) = &member.process else {
        unreachable!();
    };
    Ok(SummaryLine {
        name: Bytes::from_slice(alloc, name)?,
        events: process.events(),
        end: process.end(),
        killed,
    })
}
