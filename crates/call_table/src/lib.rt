//! The calls of the library, in one table: what each kind of call is called, takes and gives, and what the entries of a log
//! tell of it.
//!
//! The table is `row` of `specs/Table`: of each kind its number in logs, its name as an import, its signature, and which
//! fields its entries have. Contracts say that each function of `Kind` gives what is in the row, and that `from_number`
//! and `from_name` find a kind exactly where one has that number or name. The law `read_back` says that both lead back to
//! the kind. All other crates take what they need of a kind from here.
#![tactic(auto)]

mod kind;
pub mod laws;
mod signature;

pub use kind::Kind;
pub use signature::Signature;
