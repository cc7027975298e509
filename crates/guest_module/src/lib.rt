//! Guests: modules that are valid, and import functions of the library only.
//!
//! `specs/Library` says which functions a module may import, and `specs/Valid` which modules are valid. A `ValidModule` is a
//! module of which `IsValid` is known: `claim` makes one if the caller has shown that, and whoever has one may rely on it. It
//! keeps what is found once: the kind of each import's calls, what calls of each function look up, and the function that is
//! exported as its start (`specs/Start`). A `SharedModule` is one of several owners of a valid module, which is kept once. A
//! `Callee` is a function as calls take it, and a `Called` tells too what they take and give (`specs/Calls`). The law
//! `types_agree` says that typing and running see the same types.
#![tactic(auto)]

mod callee;
pub mod laws;
mod library;
mod shared;
mod start;
mod valid;

pub use callee::{Called, Callee, called_at, callee_at};
pub use library::importable;
pub use shared::SharedModule;
pub use start::{exported_start, has_plain_type, import_count};
pub use valid::{ValidModule, claim};
