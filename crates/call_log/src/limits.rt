// How long a log may be.

/// How many bytes a log has at most.
pub const MOST_LOG: usize = 33_554_432;
