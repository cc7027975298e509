// What brings an event about.
ghost use Rattle.std.specs.Prelude.{◌≡◌, ◌++◌, flat_map, IfOk, OnOk};
ghost use Rattle.std.specs.Option.{option_to_list};
ghost use Rattle.lib_calls.specs.Entry.{entry_of};
ghost use Rattle.guest_process.specs.OneEvent.{datagram_as};
ghost use Rattle.schedule_text.specs.Text.{item_text};
ghost use Rattle.schedule_back.specs.Back.{datagram_items, items_of, random_items, world_items};

use fri_bytes::Bytes;
use fri_text::Text;
use group_state::GroupEvent;
use lamport_tag::write_tag;
use lib_calls::{EntryView, Kind, REFUSED, is_taken};
use schedule_text::{Item, push_item};
use std::alloc::{AllocError, Global};

// The datagram that an event took, with its tag in front.
fn datagram(alloc: Global, entry: &EntryView<'_>) -> Result<Bytes, AllocError>
    ensures { IfOk result (λ bytes. bytes ≡ datagram_as entry.now.tag entry.now.incoming.now) }
{
    let mut bytes = Bytes::new(alloc);
    if let Some(tag) = entry.tag {
        bytes.push_all(&write_tag(tag))?;
    }
    bytes.push_all(entry.incoming)?;
    Ok(bytes)
}

// That datagram, as it comes from outside for process p.
fn datagram_item(
    alloc: Global,
    process: u32,
    entry: &EntryView<'_>,
) -> Result<Option<Item>, AllocError>
    ensures { IfOk result (λ item. option_to_list item ≡ datagram_items process (entry_of entry.now)) }
{
    if !is_taken(entry) {
        return Ok(None);
    }
    let bytes = datagram(alloc, entry)?;
    Ok(Some(Item::Inject { process, bytes }))
}

// The random bytes that an event of process p took, unless its arguments were bad.
fn random_item(
    alloc: Global,
    process: u32,
    entry: &EntryView<'_>,
) -> Result<Option<Item>, AllocError>
    ensures { IfOk result (λ item. option_to_list item ≡ random_items process (entry_of entry.now)) }
{
    if entry.reply == REFUSED {
        return Ok(None);
    }
    let bytes = Bytes::from_slice(alloc, entry.incoming)?;
    Ok(Some(Item::Random { process, bytes }))
}

// What the answer of an event takes of the world around process p.
fn world_item(
    alloc: Global,
    process: u32,
    entry: &EntryView<'_>,
) -> Result<Option<Item>, AllocError>
    ensures { IfOk result (λ item. option_to_list item ≡ world_items entry.now.call.kind process (entry_of entry.now)) }
{
    match entry.call.kind {
        Kind::Now | Kind::SleepUntil => Ok(Some(Item::Clock {
            process,
            value: entry.reply.cast_signed(),
        })),
        Kind::Random => random_item(alloc, process, entry),
        Kind::Recv | Kind::TryRecv => datagram_item(alloc, process, entry),
        _ => Ok(None),
    }
}

/// Adds the lines of what brings an event about.
pub(crate) fn push_event(
    alloc: Global,
    text: &mut Text,
    event: &GroupEvent<'_>,
) -> Result<(), AllocError>
    ensures { OnOk result (text.new ≡ text.old ++ flat_map item_text (items_of event.now.node (entry_of event.now.entry))) }
{
    let process = event.node;
    let entry = &event.entry;
    if let Some(item) = world_item(alloc, process, entry)? {
        push_item(alloc, text, &item)?;
    }
    if entry.signal != 0 {
        let signal = entry.signal;
        push_item(alloc, text, &Item::Signal { process, signal })?;
    }
    let thread = entry.thread;
    push_item(
        alloc,
        text,
        &Item::Run {
            process,
            thread,
            times: 1,
        },
    )
}
