//! What all commands share: how a call ends, the outcome of a command, and the files of modules.
//!
//! A command reads its files by `take_file` and `take_module`, which answer with what stands in them or with a `StopCause`,
//! and those of its modules by `ModuleFiles`, which reads each once and keeps it. Before it makes files, `keep_apart`
//! refuses a name that was read (`specs/Apart`). It comes to a `WorkText` or a `StopCause`; `finish` prints that and gives
//! the `Status` (`FinishedCommand` of `specs/Run`). Contracts see a command's outcome (`specs/Outcome`: its work, or the
//! stop at which it ends) as far as the folder tells its files, and say of a call's end what `CallEnds` says.
//! `specs/OutcomeLaws`, `ApartLaws`, `FileLaws`, `LineLaws`, `CountLaws` and `AskedLaws` are what follows from these
//! definitions by computing, for the proofs of the commands. `specs/Asked` is about the names that a call asks the files for.
//!
//! A command's outcome is one definition of its crate (`record_outcome`, `replay_outcome`, `debug_outcome`), over the files
//! and the input: the work (`CommandWork`: the text, the files that it writes, whether a log diverged) or the stop
//! (`CommandStop`: the words are no command, a file is refused, a file is absent). A refusal says what was printed and
//! written before it. The promises that all commands share are written once, over the outcome that is expected
//! (`Expectation`): status, text, files, faults and their causes. What a command promises of its own is a record in its
//! crate; one with none has `LeavesInput`, which says that the input is not read. A command that prints once, at its end,
//! answers with its text or its refusal (`PerformedCommand`), which `finish` prints. `debug` and `play` print as they go and
//! read an input.
//!
//! record_command asks `ModuleFiles` for the module of each process, and log_pairs for that of each pair. It reads a file
//! of a new name, and hands out a further owner (`SharedModule`) of the module that it kept for an equal name. The
//! definitions speak of a folder, in which equal names have equal modules, and know nothing of that. Its clause `once` says
//! that no file is read again. `take_log` and `begin_log` find the log that a file holds (`specs/Logs`, `specs/LogValid`).
#![tactic(auto)]

mod apart;
mod inputs;
mod kept;
pub mod laws;
mod logs;
mod printing;
mod refusal;
mod status;

pub use apart::keep_apart;
pub use inputs::{begin_process, take_file, take_module};
pub use kept::ModuleFiles;
pub use logs::{begin_log, take_log};
pub use printing::{finish, give_up, refuse_words, say_refused};
pub use refusal::{Reason, StopCause, WorkText};
pub use status::Status;
