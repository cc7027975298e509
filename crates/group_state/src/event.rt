// An event of a group.

use lib_calls::EntryView;

/// An accepted event, given by its node and its entry. Nodes are the group's logs in order of their processes'
/// numbers, counted from 0. The entry's bytes are parts of the log.
#[derive(Clone, Copy)]
pub struct GroupEvent<'a> {
    pub node: u32,
    pub entry: EntryView<'a>,
}
