// The limits of what a schedule may say.
use coop_threads::MOST_THREADS;

/// The greatest number of a thread, the first of which is 0.
pub const MOST_THREAD_NUMBER: u16 = MOST_THREADS - 1;

/// The greatest number of a datagram among those that a process sends, from 1.
pub const MOST_DATAGRAM: u64 = 9_223_372_036_854_775_807;

/// How many run items a schedule may have, where each counts as often as it tries. So none tries more
/// often.
pub const MOST_RUNS: u64 = 1_000_000;

/// How many bytes the text of a schedule has at most.
pub const MOST_SCHEDULE: usize = 16_777_216;

/// How many rounds the made group may go.
pub const MOST_ROUNDS: u32 = 100_000;
