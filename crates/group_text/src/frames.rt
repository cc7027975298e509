// How the frames of a thread are shown.
ghost use Rattle.std.specs.Prelude.{◌≡◌, ◌++◌, ◌∷◌, [], OnOk, length, take};
ghost use Rattle.std.specs.List.{flat_map};
ghost use Rattle.group_text.specs.Texts.{frames_line, frames_text, function_text, left_frames, most_told_frames};

use fri_text::Text;
use std::alloc::AllocError;

// How many frames are told of a thread at most.
const MOST_TOLD_FRAMES: usize = 64;

/// The functions of a thread's frames, or that it has none. After want of memory a part of it may be at the end of the
/// text.
pub fn push_frames(text: &mut Text, thread: u64, frames: &[u32]) -> Result<(), AllocError>
    ensures { OnOk result (text.new ≡ text.old ++ frames_line thread frames.now) }
{
    text.push_u64(thread)?;
    text.push_str(":")?;
    push_all(text, frames)?;
    text.push_str("\n")
}

fn push_all(text: &mut Text, frames: &[u32]) -> Result<(), AllocError>
    ensures { OnOk result (text.new ≡ text.old ++ frames_text frames.now) }
{
    if frames.is_empty() {
        return text.push_str(" ended");
    }
    push_functions(text, told(frames))?;
    push_left(text, frames.len())
}

// Those that are told.
fn told(frames: &[u32]) -> &[u32]
    ensures { result.now ≡ take most_told_frames frames.now }
{
    if frames.len() <= MOST_TOLD_FRAMES {
        frames
    } else {
        &frames[..MOST_TOLD_FRAMES]
    }
}

fn push_functions(text: &mut Text, frames: &[u32]) -> Result<(), AllocError>
    ensures { OnOk result (text.new ≡ text.old ++ flat_map function_text frames.now) }
{
    for frame in frames {
        text.push_str(" ")?;
        text.push_u64(u64::from(*frame))?;
    }
    Ok(())
}

// How many more there are than are told.
fn push_left(text: &mut Text, count: usize) -> Result<(), AllocError>
    ensures { OnOk result (text.new ≡ text.old ++ left_frames count) }
{
    if count <= MOST_TOLD_FRAMES {
        return Ok(());
    }
    text.push_str(" and ")?;
    text.push_u64((count - MOST_TOLD_FRAMES) as u64)?;
    text.push_str(" more")
}
