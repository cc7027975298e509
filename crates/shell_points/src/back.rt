// Goes back to where points fired last.
ghost use Rattle.std.specs.Prelude.{◌≡◌, ◌+◌, ◌<◌, ◌≤◌, ◌-◌, ◌++◌, ◌||◌, [], false, IfOk, MatchOption, OnOk, count_by, if◌then◌else◌, length, map, suc};
ghost use Rattle.group_state.specs.Place.{events_of_replays};
ghost use Rattle.group_state.specs.Touch.{is_met_by_event, watch_ticks};
ghost use Rattle.shell_points.specs.Firing.{place_at};
ghost use Rattle.shell_points.specs.inside.Reading.{NoneFires, SaysAt, point_readings, point_said_by, readings_before, stops_by};
ghost use Rattle.shell_points.specs.Returning.{may_stop, return_from};
ghost use Rattle.shell_points.specs.Meanings.{PointsReturn};
ghost use Rattle.shell_points.specs.inside.Meanings.{point as seen, return_of};
ghost use Rattle.shell_points.specs.inside.Watches.{IsWatching};
ghost use Rattle.shell_points.specs.Watching.{watched_expressions};
ghost use Rattle.shell_points.specs.declared.point.Point.{Point as Held};

use crate::firing::{fires, push_line};
use crate::point::Point;
use crate::points::Points;
use crate::watching::Watching;
use fri_text::Text;
use group_state::Group;
use point_programs::has_stop;
use std::alloc::{AllocError, Global};
use std::sync::ledger::Ledger;
use watch_expr::Steps;

/// Where a walk back ends, and what points say there.
#[derive(Drop)]
pub(crate) struct Return {
    at: u64,
    text: Text,
}

/// What points say at a position, and whether one of those that fire there may stop.
#[derive(Drop)]
pub(crate) struct Said {
    text: Text,
    stops: bool,
}

impl Points {
    /// Goes to the last position before this one at which a point fires that has no program or one with a `stop` in it, and
    /// says what all say that fire there, or else goes to position 0. No program runs. Watchpoints are evaluated at position
    /// 0, which the counter does not count, and then where an event touched something that they read.
    pub fn walk_back<L: Ledger>(
        &self,
        alloc: Global,
        group: &mut Group<'_, '_>,
        steps: &mut Steps<L>,
    ) -> Result<Text, AllocError>
        ensures returns { IfOk result (PointsReturn group.old self.now group.new) }
        ensures ticks { OnOk result (steps.new ≡ steps.old + watch_ticks group.old.start (watched_expressions self.now) 0 (group.old.at - 1)) }
    {
        let count = group.position().saturating_sub(1);
        group.goto(alloc, 0)?;
        let last = last_firing(alloc, group, &self.held, count, steps)?;
        group.goto(alloc, last.at)?;
        Ok(last.text)
    }
}

// Where points fire last that may stop, among so many positions after position 0, at which the group is. What they said
// before that is not kept.
fn last_firing<L: Ledger>(
    alloc: Global,
    group: &mut Group<'_, '_>,
    points: &[Point],
    count: u64,
    steps: &mut Steps<L>,
) -> Result<Return, AllocError>
    requires begins { group.old.at ≡ 0 }
    requires within { count ≤ length (events_of_replays group.old.start) }
    ensures start { OnOk result (group.new.start ≡ group.old.start) }
    ensures last { IfOk result (λ last. return_of last ≡ return_from (place_at group.old.start (suc count)) (map {A = Held} seen points.now)) }
    ensures ticks { OnOk result (steps.new ≡ steps.old + watch_ticks group.old.start (watched_expressions (map {A = Held} seen points.now)) 0 count) }
{
    let mut text = Text::new(alloc);
    text.push_str("start\n")?;
    let mut last = Return { at: 0, text };
    let mut watching = Watching::begin(alloc, points, group)?;
    'positions: while group.position() < count {
        group.forward()?;
        let (now, said) = hear_event(alloc, points, watching, group, steps)?;
        last = later(last, group.position(), said);
        watching = now;
    }
    Ok(last)
}

// What points read after the event that led here, and what they say.
fn hear_event<L: Ledger>(
    alloc: Global,
    points: &[Point],
    watching: Watching,
    group: &Group<'_, '_>,
    steps: &mut Steps<L>,
) -> Result<(Watching, Said), AllocError>
    requires moved { 0 < group.now.at }
    requires before { IsWatching group.now.start (group.now.at - 1) (map {A = Held} seen points.now) watching }
    ensures now { IfOk result (λ heard. IsWatching group.now.start group.now.at (map {A = Held} seen points.now) heard.0) }
    ensures said { IfOk result (λ heard. SaysAt group.now.start group.now.at (map {A = Held} seen points.now) heard.1) }
    ensures ticks { OnOk result (steps.new ≡ steps.old + count_by (is_met_by_event group.now.start group.now.at) (watched_expressions (map {A = Held} seen points.now))) }
{
    let (now, before) = watching.after_event(alloc, points, group, steps)?;
    let said = said_now(alloc, points, before, &now, group)?;
    Ok((now, said))
}

// What was said at a position, if a point may stop there, and else what was said last.
fn later(last: Return, at: u64, said: Said) -> Return
    ensures { return_of result ≡ (if said.stops then record { at = at; text = said.text } else return_of last) }
{
    if said.stops {
        let Said { text, .. } = said;
        Return { at, text }
    } else {
        last
    }
}

// What all points say that fire where the group is, by what they read now, and what they read at the position before,
// where some point may fire.
fn said_now(
    alloc: Global,
    points: &[Point],
    before: Option<Vec<Option<i64>>>,
    now: &Watching,
    group: &Group<'_, '_>,
) -> Result<Said, AllocError>
    requires moved { 0 < group.now.at }
    requires before { MatchOption before (NoneFires group.now (map {A = Held} seen points.now))
        (λ before. before.items ≡ readings_before group.now (map {A = Held} seen points.now)) }
    requires now { IsWatching group.now.start group.now.at (map {A = Held} seen points.now) now.now }
    ensures { IfOk result (SaysAt group.now.start group.now.at (map {A = Held} seen points.now)) }
{
    match before {
        Some(before) => said_here(alloc, points, &before, &now.values, group),
        None => Ok(nothing_said(alloc)),
    }
}

// The same, in the order of the points.
fn said_here(
    alloc: Global,
    points: &[Point],
    before: &[Option<i64>],
    now: &[Option<i64>],
    group: &Group<'_, '_>,
) -> Result<Said, AllocError>
    requires moved { 0 < group.now.at }
    requires before { before.now ≡ readings_before group.now (map {A = Held} seen points.now) }
    requires now { now.now ≡ point_readings group.now.start group.now.at (map {A = Held} seen points.now) }
    ensures { IfOk result (SaysAt group.now.start group.now.at (map {A = Held} seen points.now)) }
{
    let mut said = nothing_said(alloc);
    for (n, point) in points.iter().enumerate() {
        push_said(&mut said, point, before[n], now[n], group)?;
    }
    Ok(said)
}

fn nothing_said(alloc: Global) -> Said
    ensures text { result.text ≡ [] }
    ensures stops { result.stops ≡ false }
{
    let text = Text::new(alloc);
    Said { text, stops: false }
}

// Whether a point that fires may stop there.
fn may_stop(point: &Point) -> bool
    ensures { result ≡ may_stop (seen point.now).program }
{
    match &point.program {
        Some(program) => has_stop(program),
        None => true,
    }
}

// What a point says, and whether it may stop, if it fires where the group is.
fn push_said(
    said: &mut Said,
    point: &Point,
    before: Option<i64>,
    now: Option<i64>,
    group: &Group<'_, '_>,
) -> Result<(), AllocError>
    ensures text { OnOk result (said.new.text ≡ said.old.text ++ point_said_by before now group.now (seen point.now)) }
    ensures stops { OnOk result (said.new.stops ≡ (said.old.stops || stops_by before now group.now (seen point.now))) }
{
    if fires(point, before, now, group) {
        push_line(&mut said.text, point, before, now)?;
        said.stops = said.stops || may_stop(point);
    }
    Ok(())
}
