// The tokens of a line.
ghost use Rattle.std.specs.Prelude.{◌≡◌, ◌<◌, ◌^◌, IfSome, length, slice_get, option_map};
ghost use Rattle.expression_text.specs.Lexing.{token_texts, column_of_token, number_of_token_at};

use crate::number::read_number;
use std::marker::Model;

/// A token: its bytes as they are in the line, and the column of the first of them.
#[derive(Drop)]
pub(crate) struct Token<'a> {
    pub(crate) text: &'a [u8],
    pub(crate) column: u32,
}

impl<'a> Model for Token<'a> {
    ghost use Rattle.expression_text.specs.Lexing.{PlacedToken};

    ghost Value = { PlacedToken };

    ghost view = { λ t. record { text = t.text.now; column = t.column } };
}

/// The tokens of a line, in order. They are pieces of the line. Columns count from 1.
#[derive(Drop)]
pub struct Tokens<'a> {
    pub(crate) tokens: Vec<Token<'a>>,
    pub(crate) end: u32,
}

impl<'a> Model for Tokens<'a> {
    ghost use Rattle.expression_text.specs.Lexing.{LexedLine};

    ghost Value = { LexedLine };

    ghost view = { λ t. record { tokens = t.tokens.items; end = t.end } };
}

impl<'a> Tokens<'a> {
    /// How many tokens there are.
    pub fn count(&self) -> usize
        ensures { result ≡ length self.now.tokens }
    {
        self.tokens.len()
    }

    /// The bytes of the token with this number, from 0, and None exactly after the last.
    pub fn text(&self, n: usize) -> Option<&'a [u8]>
        ensures text { option_map (λ text. text.now) result ≡ slice_get (token_texts self.now) n }
        ensures small { IfSome result (λ _. n < 2 ^ 63) }
    {
        Some(self.tokens.get(n)?.text)
    }

    /// The number that the token is, and None exactly where there is no such token or it is no number.
    pub fn number(&self, n: usize) -> Option<u64>
        ensures { result ≡ number_of_token_at self.now n }
    {
        read_number(self.text(n)?)
    }

    /// The column of the token, and after the last token the one after the line.
    pub fn column(&self, n: usize) -> u32
        ensures { result ≡ column_of_token self.now n }
    {
        match self.tokens.get(n) {
            Some(token) => token.column,
            None => self.end,
        }
    }
}
