// What a process leaves.
use fri_bytes::Bytes;

/// The bytes of a process's memory after all accepted events of its log, and those that these events print.
#[derive(Drop)]
pub struct Image {
    pub memory: Bytes,
    pub printed: Bytes,
}
