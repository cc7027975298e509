// Why a line is refused.
ghost use Rattle.std.specs.Prelude.{◌≡◌, IfOk};
ghost use Rattle.shell_lines.specs.Refusals.{refusal_line};

use fri_text::Text;
use std::alloc::{AllocError, Global};

/// Why a line is refused. A syntax error names a column, from 1.
#[derive(Clone, Copy)]
pub enum LineRefusal {
    Syntax(u32),
    NoNode,
    TooDeep,
    Nested,
    NamesVariable,
    NoPoint,
    NoPosition,
    TooLong,
    TooMany,
    NoThread,
}

/// The line that says so.
pub fn refused(alloc: Global, refusal: LineRefusal) -> Result<Text, AllocError>
    ensures { IfOk result (λ text. text ≡ refusal_line refusal) }
{
    let mut text = Text::new(alloc);
    match refusal {
        LineRefusal::Syntax(column) => {
            text.push_str("? 1 syntax at column ")?;
            text.push_u64(u64::from(column))?;
        }
        LineRefusal::NoNode => text.push_str("? 2 no node")?,
        LineRefusal::TooDeep => text.push_str("? 3 too deep")?,
        LineRefusal::Nested => text.push_str("? 4 nested")?,
        LineRefusal::NamesVariable => text.push_str("? 5 variable in a watch")?,
        LineRefusal::NoPoint => text.push_str("? 6 no such point")?,
        LineRefusal::NoPosition => text.push_str("? 7 no such position")?,
        LineRefusal::TooLong => text.push_str("? 8 line too long")?,
        LineRefusal::TooMany => text.push_str("? 9 too many")?,
        LineRefusal::NoThread => text.push_str("? 13 no such thread")?,
    }
    text.push_str("\n")?;
    Ok(text)
}
