// What is said of a whole group.
ghost use Rattle.std.specs.Prelude.{◌≡◌, IfOk, OnOk};
ghost use Rattle.group_state.specs.Place.{AreGroupReplays, ReplaysFit, group_count};
ghost use Rattle.proc_replay.specs.Replaying.{Replaying};
ghost use Rattle.group_state.specs.Image.{GivesImage};
ghost use Rattle.group_state.specs.Report.{IsReport, report_line, reporting};
ghost use Rattle.group_state.specs.inside.Reporting.{IsReportCourse, ReplaysNext};
ghost use Rattle.group_state.specs.inside.Turns.{EndsAtReplay};

use crate::image::Image;
use crate::one_replay::{replay_log, verdict};
use crate::tally::Tally;
use call_log::LogHead;
use fri_bytes::Bytes;
use guest_process::{End, Verdict};
use lib_calls::memory_bytes;
use proc_replay::Replayer;
use std::alloc::{AllocError, Global};
use std::marker::Model;
use std::vec::IntoIter;

/// A log that was replayed to its end: the name of its process, how many entries were accepted, how the process
/// stands after them, and the verdict.
#[derive(Drop)]
pub struct ReportLine {
    pub name: Bytes,
    pub events: u64,
    pub end: End,
    pub verdict: Verdict,
}

/// The logs of a group, in order of their processes' numbers; and of the events that are accepted, how many sent
/// a datagram into the group, how many took one with a tag, for how many of these the send is not among the
/// events, and how many took one without a tag.
#[derive(Drop)]
pub struct Report {
    pub lines: Vec<ReportLine>,
    pub sends: u64,
    pub receives: u64,
    pub unmatched: u64,
    pub untagged: u64,
}

// The number of processes of the group whose logs these are.
fn group_count(replayers: &[Replayer<'_, '_>]) -> u32
    ensures { result ≡ group_count replayers.now }
{
    match replayers {
        [] => 0,
        [replayer, ..] => replayer.head().count,
    }
}

// What came of a log at whose end a replay is.
fn line_of(alloc: Global, last: &Replayer<'_, '_>) -> Result<ReportLine, AllocError>
    requires { (first : Replaying) × ((first.state.events ≡ 0) × EndsAtReplay first last.now) }
    ensures { IfOk result (λ line. (first : Replaying) → first.state.events ≡ 0 → EndsAtReplay first last.now → line ≡ report_line first) }
{
    proc_replay::laws::replays();
    let process = last.process();
    Ok(ReportLine {
        name: Bytes::from_slice(alloc, last.head().name)?,
        events: process.events(),
        end: process.end(),
        verdict: verdict(last),
    })
}

// The process of each log is in the ranges of its module.
fn replayers_fit(replayers: &[Replayer<'_, '_>])
    ensures { ReplaysFit replayers.now }
{
    for replayer in replayers {
        let _ = replayer.process().events();
    }
}

// The logs that are left, and what is said of those before them.
#[derive(Drop)]
struct ReportCourse<'m, 'a> {
    left: IntoIter<Replayer<'m, 'a>>,
    tally: Tally,
    lines: Vec<ReportLine>,
}

impl<'m, 'a> ReportCourse<'m, 'a> {
    // Replays the next log to its end, and says what came of it.
    fn replay_next(
        &mut self,
        alloc: Global,
        images: bool,
        out: &mut Bytes,
    ) -> Result<Option<Replayer<'m, 'a>>, AllocError>
        requires { IsReportCourse self.old }
        ensures sound { OnOk result (IsReportCourse self.new) }
        ensures next { IfOk result (ReplaysNext images self.old self.new out.old out.new) }
    {
        let Some(replayer) = self.left.next() else {
            return Ok(None);
        };
        let last = replay_log(replayer, &mut self.tally, images, out)?;
        let line = line_of(alloc, &last)?;
        self.lines.push(line)?;
        Ok(Some(last))
    }
}

/// A report that is made log after log, each replayed to its first entry that is not legal, whatever the other logs hold.
/// Contracts see the replays of the logs that are left, and what is said of all logs.
pub struct Reporter<'m, 'a> {
    course: ReportCourse<'m, 'a>,
}

// By hand, so that it is proved here, and not in each crate that owns one.
impl Drop for Reporter<'_, '_> {
    fn drop(self) {
        let Self { course: _course } = self;
    }
}

impl<'m, 'a> Model for Reporter<'m, 'a> {
    ghost use Rattle.std.specs.Coded.{codes};
    ghost use Rattle.guest_process.specs.Coding.{crew_code, trees_code};
    ghost use Rattle.group_state.specs.Report.{Reporting};
    ghost use Rattle.group_state.specs.inside.Reporting.{IsReporter, reporting_of};

    ghost Value = { Reporting };

    ghost coded = { Prim.hlevel (codes, trees_code, crew_code) };

    ghost view = { reporting_of };

    ghost invariant = { IsReporter };
}

impl<'m, 'a> Reporter<'m, 'a> {
    /// The report of the logs of a group, of which none was replayed.
    pub fn begin(alloc: Global, replayers: Vec<Replayer<'m, 'a>>) -> Reporter<'m, 'a>
        requires { AreGroupReplays replayers.items }
        ensures { result ≡ reporting replayers.entry.items }
    {
        group_order::laws::finds_one_more();
        proc_replay::laws::replays();
        guest_process::laws::rises();
        guest_process::laws::states_fit();
        replayers_fit(&replayers);
        let tally = Tally::new(alloc, group_count(&replayers));
        let course = ReportCourse {
            left: replayers.into_iter(),
            tally,
            lines: Vec::new(alloc),
        };
        Reporter { course }
    }

    /// Replays the next log, and gives its head and what its process leaves. None comes if no log is left.
    pub fn next_image(
        self,
        alloc: Global,
    ) -> Result<(Reporter<'m, 'a>, Option<(LogHead<'a>, Image)>), AllocError>
        ensures { IfOk result (λ r. GivesImage self.entry r.0 r.1) }
    {
        proc_replay::laws::replays();
        let Reporter { mut course } = self;
        let mut printed = Bytes::new(alloc);
        let Some(last) = course.replay_next(alloc, true, &mut printed)? else {
            return Ok((Reporter { course }, None));
        };
        let memory = memory_bytes(alloc, last.process().memory())?;
        Ok((
            Reporter { course },
            Some((last.head(), Image { memory, printed })),
        ))
    }

    /// Replays the logs that are left, and gives the report.
    pub fn finish(self, alloc: Global) -> Result<Report, AllocError>
        ensures { IfOk result (IsReport self.entry) }
    {
        let Reporter { mut course } = self;
        let mut printed = Bytes::new(alloc);
        'logs: while let Some(_) = course.replay_next(alloc, false, &mut printed)? {}
        let counts = course.tally.counts();
        Ok(Report {
            lines: course.lines,
            sends: counts.sends,
            receives: counts.receives,
            unmatched: counts.unmatched,
            untagged: counts.untagged,
        })
    }
}
