// How a thread stands.

/// How a thread stands: no thread of the number was made, the crew has its value, its value was taken
/// out, or it has ended.
#[derive(Clone, Copy)]
pub enum Status {
    Unknown,
    Live,
    Taken,
    Ended,
}
