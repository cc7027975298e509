// The commands of the shell.

use fri_bytes::Bytes;
use lib_calls::Kind;
use point_programs::Program;
use watch_expr::Expr;

/// The word that a command begins with.
#[derive(Clone, Copy)]
pub(crate) enum Verb {
    Goto,
    Step,
    Back,
    Print,
    Mem,
    Threads,
    Frames,
    Events,
    Watch,
    Break,
    Delete,
    Do,
    List,
    Set,
    Vars,
    Continue,
    Rcontinue,
    Quit,
}

/// Which nodes a breakpoint is for: all, or the one with a name, as which it is given by its number.
#[derive(Clone, Copy)]
pub enum WhichNodes {
    Everywhere,
    At(Option<u32>),
}

/// A command that moves the group, if only for a while. `continue` may go so many positions at most.
#[derive(Clone, Copy)]
pub enum MoveCommand {
    Goto(u64),
    Step(u64),
    Back(u64),
    Events(u64),
    Continue(Option<u64>),
    Rcontinue,
}

/// A command that leaves the group where it is. A node is given by its number, or none where no process has the name. A
/// watchpoint and a breakpoint may have a condition, and a breakpoint that names no kind of call is for all of them.
#[derive(Drop)]
pub enum StayCommand {
    Print(Expr),
    Mem(Option<u32>, u64, u64),
    Threads(Option<u32>),
    Frames(Option<u32>, u64),
    Watch(Expr, Option<Expr>),
    Break(WhichNodes, Option<Kind>, Option<Expr>),
    Delete(u64),
    Do(u64, Program),
    List,
    Set(Bytes, Expr),
    Vars,
    Quit,
}

/// A command.
#[derive(Drop)]
pub enum DebuggerCommand {
    Moves(MoveCommand),
    Stays(StayCommand),
}
