// What points do at a position.
ghost use Rattle.std.specs.Prelude.{◌≡◌, ◌<◌, IfOk, MatchOption, OnOk, map};
ghost use Rattle.shell_points.specs.Firing.{node_of_event};
ghost use Rattle.shell_points.specs.inside.Reading.{NoneFires, point_readings, readings_before, treat_by};
ghost use Rattle.shell_points.specs.inside.Meanings.{point as seen, run_so_far};
ghost use Rattle.shell_points.specs.Walking.{name_of_event, quiet_program, treat_points};
ghost use Rattle.shell_points.specs.inside.Watches.{IsWatching};
ghost use Rattle.shell_points.specs.declared.point.Point.{Point as Held};

use crate::firing::{fires, node_of_event, push_line};
use crate::point::Point;
use crate::watching::Watching;
use fri_text::Text;
use group_state::Group;
use point_programs::{EventNode, Vars, run_program};
use std::alloc::{AllocError, Global};

/// What points did so far at a position, beside what programs made of the variables: what was said, and whether a point asked
/// to stop.
#[derive(Drop)]
pub(crate) struct PointsRun {
    pub(crate) text: Text,
    pub(crate) stops: bool,
}

/// What all points do where the group is, by what they read now, and what they read at the position before, where some
/// point may fire.
pub(crate) fn run_points_here(
    alloc: Global,
    points: &[Point],
    before: Option<Vec<Option<i64>>>,
    now: &Watching,
    group: &Group<'_, '_>,
    variables: &mut Vars,
) -> Result<PointsRun, AllocError>
    requires moved { 0 < group.now.at }
    requires before { MatchOption before (NoneFires group.now (map {A = Held} seen points.now))
        (λ before. before.items ≡ readings_before group.now (map {A = Held} seen points.now)) }
    requires now { IsWatching group.now.start group.now.at (map {A = Held} seen points.now) now.now }
    ensures { IfOk result (λ run. run_so_far variables.new run ≡ treat_points group.now.start group.now.at (quiet_program variables.old) (map {A = Held} seen points.now)) }
{
    match before {
        Some(before) => treat_points(alloc, points, &before, &now.values, group, variables),
        None => {
            let text = Text::new(alloc);
            Ok(PointsRun { text, stops: false })
        }
    }
}

// The same, in the order of the points.
fn treat_points(
    alloc: Global,
    points: &[Point],
    before: &[Option<i64>],
    now: &[Option<i64>],
    group: &Group<'_, '_>,
    variables: &mut Vars,
) -> Result<PointsRun, AllocError>
    requires moved { 0 < group.now.at }
    requires before { before.now ≡ readings_before group.now (map {A = Held} seen points.now) }
    requires now { now.now ≡ point_readings group.now.start group.now.at (map {A = Held} seen points.now) }
    ensures { IfOk result (λ run. run_so_far variables.new run ≡ treat_points group.now.start group.now.at (quiet_program variables.old) (map {A = Held} seen points.now)) }
{
    let mut run = PointsRun {
        text: Text::new(alloc),
        stops: false,
    };
    for (n, point) in points.iter().enumerate() {
        treat_point(alloc, point, before[n], now[n], group, variables, &mut run)?;
    }
    Ok(run)
}

// The node of the event that led to where the group is, with its name.
fn event_node<'a>(group: &Group<'_, 'a>) -> EventNode<'a>
    ensures node { result.node ≡ node_of_event group.now }
    ensures name { result.name.now ≡ name_of_event group.now.start (node_of_event group.now) }
{
    let node = node_of_event(group);
    let name = match node {
        Some(node) => group.node_name(node).unwrap_or(&[]),
        None => &[],
    };
    EventNode { node, name }
}

// What a point does where the group is, if it fires there.
fn treat_point(
    alloc: Global,
    point: &Point,
    before: Option<i64>,
    now: Option<i64>,
    group: &Group<'_, '_>,
    variables: &mut Vars,
    run: &mut PointsRun,
) -> Result<(), AllocError>
    ensures { OnOk result (run_so_far variables.new run.new ≡ treat_by before now group.now (run_so_far variables.old run.old) (seen point.now)) }
{
    if !fires(point, before, now, group) {
        return Ok(());
    }
    match &point.program {
        Some(program) => {
            let by = event_node(group);
            let stops = run_program(alloc, program, group, by, variables, &mut run.text)?;
            run.stops = run.stops || stops;
        }
        None => {
            push_line(&mut run.text, point, before, now)?;
            run.stops = true;
        }
    }
    Ok(())
}
