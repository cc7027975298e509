//! A conversation: a session that answers lines is read from a terminal, and each line is answered before more is asked for.
//!
//! A session is whatever answers lines (`LineSession`): what it says, which it keeps until the next line, and whether it goes
//! on. `converse` prints the opening, takes the input as it comes and answers each whole line of a piece before it asks for the
//! next piece. It ends after a line that ends the session, at the end of the input, whose last line is answered too, or where
//! 16,777,216 bytes were read and none of their lines ends the session.
//!
//! Contracts see a session by what it answers in each state. They say of one that stands in a state what that talker
//! (`Talker` of `specs/Talker`) comes to: the outcome over the input (`conversation_outcome` of `specs/Outcome`), and what
//! was taken of the input and had been printed each time that more was asked for (`specs/Input`). `Converses` of
//! `specs/Conversing` is the promise of the whole conversation. A session need not keep all that its states tell: `stands`
//! is a relation, and the promise holds for each state in which the session stands. `specs/inside/Reader` is inside: how a
//! session stands between the bytes that it takes. The law `ends_unbegun` is for a session that could not begin for want of
//! memory.
#![tactic(auto)]

mod conversing;
pub mod laws;
mod session;

pub use conversing::converse;
pub use session::{Go, LineSession};
