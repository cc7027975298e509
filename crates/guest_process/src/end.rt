// How a process stands.
use wasm_types::Trap;

/// Whether a process runs, and how it ended.
#[derive(Clone, Copy, PartialEq, Eq, Drop)]
pub enum End {
    Running,
    /// All its threads have ended.
    Finished,
    /// It called `exit` with this code.
    Exited(i32),
    /// One of its threads has trapped.
    Trapped(Trap),
}
