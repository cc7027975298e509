// The commands of a play.

use watch_expr::Expr;

/// The word that a command begins with.
#[derive(Clone, Copy)]
pub(crate) enum PlayVerb {
    Processes,
    Threads,
    Datagram,
    Printed,
    Print,
    Mem,
    Again,
    Quit,
}

/// A command. A node is given by its number, or none where no process has the name; after `Datagram` come the number of the
/// sender and that of the datagram among those that it sent, from 1.
#[derive(Drop)]
pub enum PlayerCommand {
    Processes,
    Threads(Option<u32>),
    Datagram(u32, u64),
    Printed(Option<u32>, u64),
    Print(Expr),
    Mem(Option<u32>, u64, u64),
    Again,
    Quit,
}
