// What is said of a stream.

/// Of a stream: the process that writes it, the one that reads it, its number, how many bytes were written to it, and how many
/// of these, from its beginning on, were read.
#[derive(Clone, Copy)]
pub struct StreamLine {
    pub from: u32,
    pub to: u32,
    pub stream: u16,
    pub written: u64,
    pub read: u64,
}
