//! What a line of a play is: nothing, a line that is refused and why, an item of a schedule, or a command.
//!
//! That depends on its bytes and on the names of the processes alone, and is one definition, `play_meaning` of
//! `specs/Meaning`; `read_play_line` gives it, or wants memory. An item is one that a schedule with these processes could have
//! (`item_of_line` of schedule_text). Contracts see a command as a `PlayCommand` of `specs/Lines`, in which a node is a number,
//! or none where no process has the name. What a line does is said in play_command. Inside is what the functions read of
//! tokens (`specs/inside/Reading`).
#![tactic(auto)]

mod command;
mod line;
mod refusal;
mod verbs;

pub use command::PlayerCommand;
pub use line::{PlayLine, read_play_line};
pub use refusal::{PlayRefusal, refused_play};
