//! The shell of the debugger: a session over the logs of a group, and what it answers to each line.
//!
//! What a line says is read by shell_lines, what points do by shell_points, and how events are shown is said in
//! group_text; here is what a command does. Contracts see a session as the place of its group, its points, how many were
//! ever made, and its variables (`SessionState` of `specs/Points`). `Session::answer_line` promises, for any bytes, the answer,
//! the session after it and whether it ends that `answer` of `specs/Answer` gives, and `refused_stays` that a line which
//! is refused changes nothing. The law `same_group_same_session` says what a session sees of its replays: names, events in
//! order and states (`specs/SameGroup`).
//!
//! A command moves the group or shows it (`answer`, `shown`), or changes the points (`points`) or the variables
//! (`variables`), so a refused line leaves the session as it was. The answer to a list of lines is a fold of `answer`
//! (`specs/Talker` of conversation). Nothing is walked ahead: a session begins when the heads of the logs are read.
#![tactic(auto)]

mod answer;
pub mod laws;
mod points;
mod session;
mod shown;
mod state;
mod variables;

pub use session::Session;
