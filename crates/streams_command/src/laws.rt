// What is so of the streams of all groups, as calls that do nothing.
ghost use Rattle.streams_command.specs.Laws.{StreamsWork};
ghost use Rattle.streams_command.specs.Positions.{StreamsAtPositions};

/// The modules and logs of a group have an outcome that is work.
pub fn streams_work()
    ensures { StreamsWork }
{
    log_pairs::laws::opens_groups();
}

/// At each position of the order, a byte of a stream that is read was taken by an event before, and had been sent by one before
/// that. What was written then stands at each later position, and what was covered is covered.
pub fn streams_at_positions()
    ensures { StreamsAtPositions }
{
    byte_streams::laws::covered_was_written();
}
