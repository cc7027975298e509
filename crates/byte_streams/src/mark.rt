// What a send or a receive is to the streams.

/// What a datagram is to the streams of a group.
#[derive(Clone, Copy, Debug, PartialEq, Eq)]
pub enum PayloadMark {
    /// Its payload is no chunk.
    Plain,
    /// It goes on with its stream, or repeats a part; or it brings the front of such a send.
    Counted,
    /// It is any other chunk.
    Strange,
}
