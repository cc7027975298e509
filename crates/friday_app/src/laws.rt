// What is so of the streams of a recording, as a call that does nothing.
ghost use Rattle.friday_app.specs.Streams.{RecordedStreams};

/// Of a recording's logs a datagram that was sent is never strange where it is taken, unless its send is: so each byte that
/// is read was written before, by the process that the stream is from.
pub fn recorded_streams()
    ensures { RecordedStreams }
{
    byte_streams::laws::fronts_count();
}
