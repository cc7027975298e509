// Goes on to where a point asks to stop.
ghost use Rattle.std.specs.Prelude.{◌≡◌, ◌+◌, ◌-◌, ◌<◌, ◌++◌, ◌==◌, [], IfOk, OnOk, count_by, map, option_map};
ghost use Rattle.group_state.specs.Touch.{is_met_by_event, watch_ticks};
ghost use Rattle.shell_points.specs.Meanings.{PointsWalk};
ghost use Rattle.shell_points.specs.inside.Meanings.{point as seen, run_so_far};
ghost use Rattle.shell_points.specs.inside.Watches.{IsWatching};
ghost use Rattle.shell_points.specs.Walking.{last_word, lines_in, positions_ahead, quiet_program, steps_of, treat_points};
ghost use Rattle.shell_points.specs.Watching.{watched_expressions};
ghost use Rattle.shell_points.specs.declared.point.Point.{Point as Held};

use crate::point::Point;
use crate::points::Points;
use crate::points_run::{PointsRun, run_points_here};
use crate::watching::Watching;
use fri_text::Text;
use group_state::Group;
use point_programs::Vars;
use std::alloc::{AllocError, Global};
use std::sync::ledger::Ledger;
use watch_expr::Steps;

// A walk that has said so many lines pauses.
const MOST_WALK_LINES: usize = 10_000;

impl Points {
    /// Goes to the first position after this one at which a point asks to stop or enough was said, or to the last; and over
    /// so many positions at most, where that is given. Gives what points said on the way; their programs may have set variables.
    /// Each watchpoint is evaluated once where the walk begins, which the counter does not count, and then where an event
    /// touched something that it reads.
    pub fn walk<L: Ledger>(
        &self,
        alloc: Global,
        group: &mut Group<'_, '_>,
        variables: &mut Vars,
        most: Option<u64>,
        steps: &mut Steps<L>,
    ) -> Result<Text, AllocError>
        ensures walks { IfOk result (PointsWalk group.old self.now variables.old most group.new variables.new) }
        ensures ticks { OnOk result (steps.new ≡ steps.old + watch_ticks group.old.start (watched_expressions self.now) group.old.at (group.new.at - group.old.at)) }
    {
        let mut text = Text::new(alloc);
        walk_there(alloc, group, &self.held, variables, &mut text, most, steps)?;
        Ok(text)
    }
}

// Goes there. Programs may set variables on the way, and what is said is written.
fn walk_there<L: Ledger>(
    alloc: Global,
    group: &mut Group<'_, '_>,
    points: &[Point],
    variables: &mut Vars,
    text: &mut Text,
    most: Option<u64>,
    steps: &mut Steps<L>,
) -> Result<(), AllocError>
    requires { text.old ≡ [] }
    ensures walks { OnOk result (PointsWalk group.old (map {A = Held} seen points.now) variables.old most group.new variables.new text.new) }
    ensures ticks { OnOk result (steps.new ≡ steps.old + watch_ticks group.old.start (watched_expressions (map {A = Held} seen points.now)) group.old.at (group.new.at - group.old.at)) }
{
    let _ = group.position();
    let mut watching = Watching::begin(alloc, points, group)?;
    let mut room = MOST_WALK_LINES;
    let mut left = most;
    'positions: loop {
        if is_over(group, left) {
            push_last_word(text, group)?;
            return Ok(());
        }
        group.forward()?;
        left = one_less(left);
        let (now, treated) = meet_event(alloc, points, watching, group, variables, steps)?;
        watching = now;
        text.push_bytes(treated.text.bytes())?;
        if treated.stops {
            return Ok(());
        }
        let lines = lines_in(&treated.text);
        if lines >= room {
            text.push_str("paused\n")?;
            return Ok(());
        }
        room -= lines;
    }
}

// Whether no position is left, or none of those that may be walked.
fn is_over(group: &Group<'_, '_>, left: Option<u64>) -> bool
    ensures { result ≡ (steps_of left (positions_ahead group.now) == 0) }
{
    let last = group.is_last();
    match left {
        Some(n) => n == 0 || last,
        None => last,
    }
}

fn one_less(left: Option<u64>) -> Option<u64>
    ensures { result ≡ option_map (λ n. n - 1) left }
{
    match left {
        Some(n) => Some(n.saturating_sub(1)),
        None => None,
    }
}

// What a walk says that no point ended.
fn push_last_word(text: &mut Text, group: &Group<'_, '_>) -> Result<(), AllocError>
    ensures { OnOk result (text.new ≡ text.old ++ last_word group.now.start group.now.at) }
{
    if group.is_last() {
        text.push_str("end\n")
    } else {
        text.push_str("paused\n")
    }
}

// What points read after the event that led here, and what they do.
fn meet_event<L: Ledger>(
    alloc: Global,
    points: &[Point],
    watching: Watching,
    group: &Group<'_, '_>,
    variables: &mut Vars,
    steps: &mut Steps<L>,
) -> Result<(Watching, PointsRun), AllocError>
    requires moved { 0 < group.now.at }
    requires before { IsWatching group.now.start (group.now.at - 1) (map {A = Held} seen points.now) watching }
    ensures now { IfOk result (λ met. IsWatching group.now.start group.now.at (map {A = Held} seen points.now) met.0) }
    ensures treated { IfOk result (λ met. run_so_far variables.new met.1 ≡ treat_points group.now.start group.now.at (quiet_program variables.old) (map {A = Held} seen points.now)) }
    ensures ticks { OnOk result (steps.new ≡ steps.old + count_by (is_met_by_event group.now.start group.now.at) (watched_expressions (map {A = Held} seen points.now))) }
{
    let (now, before) = watching.after_event(alloc, points, group, steps)?;
    let treated = run_points_here(alloc, points, before, &now, group, variables)?;
    Ok((now, treated))
}

// How many lines a text has.
fn lines_in(text: &Text) -> usize
    ensures { result ≡ lines_in text.now }
{
    text.bytes().iter().filter(|b| **b == b'\n').count()
}
