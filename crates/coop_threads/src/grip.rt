// What a thread finds that asks for a lock.

/// What a thread finds that asks for a lock: the lock was free and is the thread's now, the thread
/// holds it already, or the thread of this number holds it.
#[derive(Clone, Copy)]
pub enum Grip {
    Got,
    Already,
    Held(u16),
}
