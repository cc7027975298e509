// Why no thread was made.

/// Why no thread was made, with the value that it would have had: the most were made, or memory ran out.
#[derive(Drop)]
pub enum SpawnError<T> {
    Full(T),
    NoMemory(T),
}
