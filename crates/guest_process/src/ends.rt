// How the end of a process is shown.
ghost use Rattle.std.specs.Prelude.{◌≡◌, ◌++◌, IfOk, OnErr, OnOk};
ghost use Rattle.guest_process.specs.Ends.{end_text, trap_text};

use crate::end::End;
use fri_text::Text;
use std::alloc::{AllocError, Global};
use wasm_types::Trap;

// Why a thread trapped.
fn trap_text(why: Trap) -> &'static str
    ensures { result.now ≡ trap_text why }
{
    match why {
        Trap::Unreachable => "unreachable",
        Trap::ZeroDivisor => "zero divisor",
        Trap::Overflow => "overflow",
        Trap::MemoryRange => "memory range",
        Trap::TableRange => "table range",
        Trap::EmptyElement => "empty element",
        Trap::TypeDiffers => "type differs",
        Trap::Exhausted => "exhausted",
        Trap::Spent => "spent",
    }
}

// How a process stands.
fn end_text(alloc: Global, end: End) -> Result<Text, AllocError>
    ensures { IfOk result (λ text. text ≡ end_text end) }
{
    let mut text = Text::new(alloc);
    match end {
        End::Running => text.push_str("running")?,
        End::Finished => text.push_str("finished")?,
        End::Exited(code) => {
            text.push_str("exited ")?;
            text.push_i64(i64::from(code))?;
        }
        End::Trapped(why) => {
            text.push_str("trapped ")?;
            text.push_str(trap_text(why))?;
        }
    }
    Ok(text)
}

/// Appends how a process stands; and nothing where there is no memory for all of it.
pub fn push_end(alloc: Global, text: &mut Text, end: End) -> Result<(), AllocError>
    ensures ok { OnOk result (text.new ≡ text.old ++ end_text end) }
    ensures err { OnErr result (text.new ≡ text.old) }
{
    let whole = end_text(alloc, end)?;
    text.push_bytes(whole.bytes())
}
