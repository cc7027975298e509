// The text of a schedule in the making.
ghost use Rattle.std.specs.Prelude.{◌≡◌, ◌≤◌, ◌++◌, ◌∷◌, [], List, length, IfOk, OnOk, nat_le, if◌then◌else◌, Some, None};
ghost use Rattle.fri_bytes.specs.Laws.{AreBytes};
ghost use Rattle.lib_calls.specs.declared.entry.Entry.{Entry as EntryOf};
ghost use Rattle.group_order.specs.Order.{NodeEvent};
ghost use Rattle.group_state.specs.Moves.{event_of};
ghost use Rattle.group_state.specs.Place.{events_of_replays};
ghost use Rattle.schedule_text.specs.Limits.{most_schedule};
ghost use Rattle.schedule_text.specs.declared.process.ProcessLine.{ProcessLine as LineOf};
ghost use Rattle.schedule_back.specs.Meanings.{IncomingAreBytes};
ghost use Rattle.schedule_back.specs.inside.Draft.{IsDraft};

use crate::items::push_event;
use fri_text::Text;
use group_state::{Group, GroupEvent};
use schedule_text::{MOST_SCHEDULE, ProcessLine, push_head};
use std::alloc::{AllocError, Global};

// The text, where it is no longer than a schedule may be.
fn within(text: Text) -> Option<Text>
    ensures { result ≡ (if nat_le (length text) most_schedule then Some text else None) }
{
    if text.bytes().len() <= MOST_SCHEDULE {
        Some(text)
    } else {
        None
    }
}

/// The draft of a schedule of these processes without events.
pub(crate) fn begin(alloc: Global, lines: &[ProcessLine]) -> Result<Option<Text>, AllocError>
    ensures { IfOk result (IsDraft lines.now []) }
{
    let mut text = Text::new(alloc);
    push_head(&mut text, lines)?;
    Ok(within(text))
}

// The draft with one more event. Once it is too long it stays so.
fn add(
    alloc: Global,
    draft: Option<Text>,
    event: &GroupEvent<'_>,
) -> Result<Option<Text>, AllocError>
    ensures { IfOk result (λ longer. (lines : List LineOf) (es : List (NodeEvent EntryOf)) → IsDraft lines es draft
        → IsDraft lines (es ++ event_of event.now ∷ []) longer) }
{
    let Some(mut text) = draft else {
        return Ok(None);
    };
    push_event(alloc, &mut text, event)?;
    Ok(within(text))
}

// The items of a slice of bytes are bytes.
fn are_bytes(bytes: &[u8])
    ensures { AreBytes bytes.now }
{}

/// Walks a group from position 0 to its end, and adds each event to the draft.
pub(crate) fn walk(
    alloc: Global,
    group: &mut Group<'_, '_>,
    draft: Option<Text>,
) -> Result<Option<Text>, AllocError>
    requires { group.old.at ≡ 0 }
    ensures start { OnOk result (group.new.start ≡ group.old.start) }
    ensures end { OnOk result (group.new.at ≡ length (events_of_replays group.old.start)) }
    ensures draft { IfOk result (λ longer. (lines : List LineOf) → IsDraft lines [] draft
        → IsDraft lines (events_of_replays group.old.start) longer) }
    ensures bytes { OnOk result (IncomingAreBytes (events_of_replays group.old.start)) }
{
    let mut longer = draft;
    'events: loop {
        let Some(event) = group.forward()? else {
            let _ = group.position();
            return Ok(longer);
        };
        are_bytes(event.entry.incoming);
        longer = add(alloc, longer, &event)?;
    }
}
