//! What a line of a session is: nothing, a line that is refused and why, or a command of the debugger.
//!
//! That depends on its bytes and on the names of the processes alone, and is one definition, `line_meaning` of
//! `specs/Meaning`; `read_line` gives it, or wants memory. Contracts see a command as a `LineCommand` of `specs/Lines`,
//! in which a node is a number, or none where no process has the name. `specs/Grammar` says which tokens are which
//! command, and the law `exact_commands` ties it to `command_spelled`, which computes. What a command does is said
//! in friday_shell.
//!
//! The tests on a line come in their order in `line_meaning`. `exact_commands` rests on the laws of expression_text and
//! point_programs, which say what an expression and a program are. The code cuts and reads a line in `line`, `verbs` and `read`.
//! There a command that moves the group and one that leaves it are two types, since only the first takes the group along.
//!
//! The debugger's lines are four crates, each of which can be proved by itself: this one, group_text and shell_points know
//! nothing of each other, and friday_shell uses all three.
#![tactic(auto)]

mod command;
pub mod laws;
mod line;
mod read;
mod refusal;
mod verbs;

pub use command::{DebuggerCommand, MoveCommand, StayCommand, WhichNodes};
pub use line::{Line, is_silent, read_line, trimmed};
pub use read::{read_expression, read_node, read_number};
pub use refusal::{LineRefusal, refused};
