// Where points fire, and what they say there.
ghost use Rattle.std.specs.Prelude.{◌≡◌, ◌++◌, Some, OnOk};
ghost use Rattle.group_state.specs.Moves.{event_of, last_event_of};
ghost use Rattle.shell_points.specs.Firing.{firing_line_by, is_due_by, is_event_of_kind, meets_condition, node_of_event};
ghost use Rattle.shell_points.specs.Meanings.{held_condition as condition_meant, trigger as seen_trigger};
ghost use Rattle.shell_points.specs.inside.Meanings.{point as seen};
ghost use Rattle.shell_points.specs.inside.Reading.{fires_by};

use crate::point::{Point, Trigger};
use fri_text::Text;
use group_state::{Group, GroupEvent};
use lib_calls::Kind;
use page_watch::is_same_value;
use point_programs::{is_true, push_value};
use std::alloc::AllocError;
use watch_expr::{Expr, NoVariables, eval_in_event};

// Whether an event is of this kind and of this node, where they are given.
fn is_of(node: Option<u32>, kind: Option<Kind>, event: &GroupEvent<'_>) -> bool
    ensures { result ≡ is_event_of_kind node kind (Some (event_of event.now)) }
{
    let of_node = match node {
        Some(wanted) => wanted == event.node,
        None => true,
    };
    let of_kind = match kind {
        Some(wanted) => event.entry.call.kind.number() == wanted.number(),
        None => true,
    };
    of_node && of_kind
}

// Whether what a point waits for is where the group is.
fn is_due(trigger: &Trigger, before: Option<i64>, now: Option<i64>, group: &Group<'_, '_>) -> bool
    ensures { result ≡ is_due_by before now (last_event_of group.now) (seen_trigger trigger.now) }
{
    match trigger {
        Trigger::Watch(_) => !is_same_value(before, now),
        Trigger::Break(node, kind) => match group.last_event() {
            Some(event) => is_of(*node, *kind, &event),
            None => false,
        },
    }
}

/// The node of the event that led to where the group is.
pub(crate) fn node_of_event(group: &Group<'_, '_>) -> Option<u32>
    ensures { result ≡ node_of_event group.now }
{
    match group.last_event() {
        Some(event) => Some(event.node),
        None => None,
    }
}

// Whether a condition is met where the group is.
fn meets(condition: &Option<Expr>, group: &Group<'_, '_>) -> bool
    ensures { result ≡ meets_condition group.now (condition_meant condition.now) }
{
    match condition {
        Some(expression) => {
            let value = eval_in_event(expression, group, &NoVariables, node_of_event(group));
            is_true(value)
        }
        None => true,
    }
}

/// Whether a point fires where the group is. Its condition is evaluated only where it would fire without it.
pub(crate) fn fires(
    point: &Point,
    before: Option<i64>,
    now: Option<i64>,
    group: &Group<'_, '_>,
) -> bool
    ensures { result ≡ fires_by before now group.now (seen point.now) }
{
    is_due(&point.trigger, before, now, group) && meets(&point.condition, group)
}

/// What a point says that fires.
pub(crate) fn push_line(
    text: &mut Text,
    point: &Point,
    before: Option<i64>,
    now: Option<i64>,
) -> Result<(), AllocError>
    ensures { OnOk result (text.new ≡ text.old ++ firing_line_by before now point.now.number (seen_trigger point.now.trigger)) }
{
    match point.trigger {
        Trigger::Watch(_) => {
            text.push_str("watch ")?;
            text.push_u64(point.number)?;
            text.push_str(": ")?;
            push_value(text, before)?;
            text.push_str(" -> ")?;
            push_value(text, now)?;
            text.push_str("\n")
        }
        Trigger::Break(_, _) => {
            text.push_str("break ")?;
            text.push_u64(point.number)?;
            text.push_str("\n")
        }
    }
}
