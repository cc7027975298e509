// The fields of a line.
ghost use Rattle.std.specs.Prelude.{◌≡◌, not, position, option_map};
ghost use Rattle.schedule_text.specs.Fields.{is_separator, fields_of, last_field_of};
ghost use Rattle.schedule_text.specs.inside.Reader.{TakesField};

use std::marker::Model;

/// The fields of a line that are still to come. They are pieces of the line.
#[derive(Drop)]
pub(crate) struct Fields<'a> {
    rest: &'a [u8],
}

impl<'a> Model for Fields<'a> {
    ghost use Rattle.std.specs.Prelude.{ℕ, List};
    ghost use Rattle.schedule_text.specs.Fields.{fields_of};

    ghost Value = { List (List ℕ) };

    ghost view = { λ f. fields_of f.rest.now };
}

impl<'a> Fields<'a> {
    /// The fields of the line.
    pub(crate) fn new(line: &'a [u8]) -> Fields<'a>
        ensures { result ≡ fields_of line.now }
    {
        Fields { rest: line }
    }

    /// The next field.
    pub(crate) fn next_field(&mut self) -> Option<&'a [u8]>
        ensures { TakesField self.old self.new (option_map (λ field. field.now) result) }
    {
        let start = field_start(self.rest)?;
        let rest = &self.rest[start..];
        let end = blank_at(rest).unwrap_or(rest.len());
        let (field, rest) = rest.split_at(end);
        self.rest = rest;
        Some(field)
    }

    /// The next field, where it is the last.
    pub(crate) fn last_field(&mut self) -> Option<&'a [u8]>
        ensures { option_map (λ field. field.now) result ≡ last_field_of self.old }
    {
        let field = self.next_field()?;
        match self.next_field() {
            None => Some(field),
            Some(_) => None,
        }
    }
}

/// The place of the first byte that is no blank.
fn field_start(bytes: &[u8]) -> Option<usize>
    ensures { result ≡ position (λ b. not (is_separator b)) bytes.now }
{
    bytes.iter().position(|b| *b != b' ' && *b != b'\t')
}

/// The place of the first blank.
fn blank_at(bytes: &[u8]) -> Option<usize>
    ensures { result ≡ position is_separator bytes.now }
{
    bytes.iter().position(|b| *b == b' ' || *b == b'\t')
}
