// Why a line of a play is refused.
ghost use Rattle.std.specs.Prelude.{◌≡◌, IfOk};
ghost use Rattle.play_lines.specs.Refusals.{play_refusal_line};

use fri_text::Text;
use shell_lines::{LineRefusal, refused};
use std::alloc::{AllocError, Global};

/// Why a line is refused: as in the debugger, or for what it would do to the recording.
#[derive(Clone, Copy)]
pub enum PlayRefusal {
    AsLine(LineRefusal),
    BadItem,
    TooManyTries,
    Full,
}

/// The line that says so.
pub fn refused_play(alloc: Global, why: PlayRefusal) -> Result<Text, AllocError>
    ensures { IfOk result (λ text. text ≡ play_refusal_line why) }
{
    match why {
        PlayRefusal::AsLine(why) => refused(alloc, why),
        PlayRefusal::BadItem => said(alloc, "? 10 bad item\n"),
        PlayRefusal::TooManyTries => said(alloc, "? 11 too many tries\n"),
        PlayRefusal::Full => said(alloc, "? 12 full\n"),
    }
}

fn said(alloc: Global, line: &str) -> Result<Text, AllocError>
    ensures { IfOk result (λ text. text ≡ line.now) }
{
    let mut text = Text::new(alloc);
    text.push_str(line)?;
    Ok(text)
}
