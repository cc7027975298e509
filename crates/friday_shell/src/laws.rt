// What holds of the lines of a session, whatever they are. These calls do nothing.
ghost use Rattle.friday_shell.specs.Laws.{RefusedStays, SameGroupSameSession};

/// A line whose answer is the line of a refusal leaves the session as it was, and does not end it.
pub fn refused_stays()
    ensures { RefusedStays }
{}

/// Of its replays a session sees the names of the nodes, their events in order and the states at each position, and nothing else.
pub fn same_group_same_session()
    ensures { SameGroupSameSession }
{}
