//! The programs that are attached to the points of a debugger, and the variables that they set.
//!
//! A program is read from the tokens of a line (`parse_program`), and run over the nodes of a group (`run_program`).
//! Contracts see it as a list of statements (`specs/Tree`), and the variables as a list of names with their values, in the
//! order in which they were first mentioned (`specs/Variables`). Where a program runs, it knows the node of the event that led
//! there (`EventNode`). `specs/Grammar` says which tokens spell which program,
//! `specs/Faulty` what may be wrong with one, and `specs/Running` what one does to the variables and what it says. Each call
//! gives exactly that, or wants memory. The law `exact_programs` says that tokens spell at most one program, which
//! `specs/Reading` computes, and at which token they stop being the front of any.
//!
//! A program is read by recursive descent (`parser`, `token`), statement by statement; an expression in it is as many tokens
//! as begin one, which `parse` of expression_text reads. `specs/Reading` is the same descent as a function that computes,
//! `program_of`. What a program does is a function of the nodes, the variables and what was said before (`after_statements`
//! of `specs/Running`). `Vars` is a `Scope` of watch_expr. The crate uses none but those of its row in crates.txt and
//! `indexmap` of the kit. Inside is how statements and variables are held in memory (`specs/inside/TreeLaws`,
//! `specs/inside/Kept`).
#![tactic(auto)]

mod faults;
mod keyword;
pub mod laws;
mod parser;
mod program;
mod run;
mod stops;
mod token;
mod variables;

pub use faults::{ProgramFaults, program_faults};
pub use parser::parse_program;
pub use program::{Program, SayItem, Stmt};
pub use run::{EventNode, is_true, push_value, run_program};
pub use stops::has_stop;
pub use variables::Vars;
