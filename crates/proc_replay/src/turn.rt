// What a turn of a replay gives.

use guest_process::Divergence;
use lib_calls::EntryView;

/// What the next turn of a replay gives: the entry whose event is made; or that no entry comes next in
/// the log; or the number of the entry that comes next, from 1 on, and why it is not legal.
#[derive(Clone, Copy)]
pub enum Turn<'a> {
    Event(EntryView<'a>),
    LogEnd,
    Diverged(u64, Divergence),
}
