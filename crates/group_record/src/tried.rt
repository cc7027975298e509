// What comes of a try.
use lib_calls::EntryView;

/// What a try of a thread gave.
#[derive(Drop)]
pub enum Tried<'a> {
    /// Nothing: the thread waits, or is none that runs.
    Idle,
    /// The event of this entry, whose bytes are lent.
    Had(EntryView<'a>),
    /// An event for which the process's log would have no room. It was not made.
    Full,
}
