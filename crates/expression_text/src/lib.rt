//! The expressions of the debugger as text: the tokens of a line, the expression that they spell, and what may be wrong with it.
//!
//! `lex` cuts a line into tokens, the longest at each place (`specs/Lexing`), `parse` reads an expression from them
//! (`specs/Grammar`, over the words and signs of `specs/Spelling`), and `find_faults` says what may be wrong with it
//! (`specs/Faulty`). Clauses speak of an `Expr` as a tree (`expression_of` of `specs/Expression`), and `specs/Coding` has a
//! code for trees. The laws say that the tokens of a line and the expression of tokens are the only ones and are computed
//! (`exact_cut`, `exact_reading`; `specs/Computed`), and what no expression has in it (`none_apart`). `specs/Front`
//! computes the token at a place. Expressions are read by a machine with a stack, which `specs/Machine` computes, so that
//! brackets in brackets take no stack of the program's. Inside is what the parser holds of that machine
//! (`specs/inside/Frames`). What an expression is worth is no matter of this crate.
#![tactic(auto)]

mod error;
mod expr;
mod faults;
pub mod laws;
mod lexer;
mod number;
mod parser;
mod stack;
mod token;
mod word;

pub use error::ExprError;
pub use expr::{Agg, Binary, Expr, NodeName, Unary, Width};
pub use faults::{Faults, find_faults};
pub use lexer::{is_blank, lex};
pub use number::MOST_NUMBER;
pub use parser::parse;
pub use token::Tokens;
pub use word::{find_name, is_word};
