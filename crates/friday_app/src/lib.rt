//! The program as one call: the words of the command line, the files, an input and an output are handed in.
//!
//! `friday` reads which command the words name (`specs/Command`) and has its crate do it: `record_command`,
//! `replay_command`, `debug_command`, `drill_command`, `migrate_command`, `schedule_command`, `cut_command`,
//! `streams_command` or `play_command`. What the call promises stands once, as the fields of `CommandRun` (`specs/Run`),
//! over the outcome of the command (`specs/Expected`), with what the command promises of its own (`specs/Promises`). A
//! further command is a crate beside those nine, and a case in the definitions here. The law `recorded_streams` says what
//! `streams` makes of a recording's logs. Inside is which command the words of the code stand for
//! (`specs/inside/Meanings`).
//!
//! `expected` gives of each command the outcome, as far as files and input are told, the files that it may write, those that
//! it reads, and whether it may tell that a log diverged. `CommandRun` is what all commands share (`CallEnds` of
//! command_run) with the record of this one (`Promises`), and is the one clause of `friday` apart from `complete`.
//!
//! The commands use command_run, which also reads logs; log_pairs, if they replay them; and conversation, if they
//! read their input line by line. They do not use each other, except that schedule_command cites definitions of
//! record_command, since what it prints is for `record`, and that play_command reads its schedule and modules by it, and
//! speaks of its outcome. No proof or edit of another command is tried again for a further one, unless that has a reason of
//! its own to refuse a file: the reasons are those of command_run.
//! `record_and_show` makes two calls, of which the second shows what the first recorded: what it says (`ShowsRecorded` of
//! `specs/TwoCalls`) is the main theorem seen from outside, and follows from what `friday` promises. `friday_stopped` makes a
//! call of which only so many calls on the files come through, as of a program that is killed between two of them
//! (`specs/Stopped`).
#![tactic(auto)]

mod command;
pub mod laws;
mod stopped_call;
mod top;
mod two_calls;

pub use command_run::Status;
pub use stopped_call::friday_stopped;
pub use top::friday;
pub use two_calls::record_and_show;
