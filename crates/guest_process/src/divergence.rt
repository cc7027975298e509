// Why an entry is not the next event.

/// Why an entry of a log can't be the next event of its process, in the order in which the conditions
/// are looked at.
#[derive(Clone, Copy, Drop)]
pub enum Divergence {
    /// The process is not running.
    AfterEnd,
    /// The entry's thread is not live.
    NoThread,
    /// The thread's pending call has another kind.
    OtherCall,
    /// An argument differs.
    OtherArguments,
    /// The bytes that went out are not those that the call names.
    OtherBytes,
    /// No environment can give this answer.
    OtherReply,
    /// The signal has no handler after the answer, or the call ends the process.
    NoHandler,
    /// The clock is not the next one.
    OtherClock,
}
