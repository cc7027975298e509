// The bytes that a line of a script spells.

use anyhow::{Context, bail, ensure};
use fri_outside::MemFiles;
use std::alloc::Global;

/// The most bytes that one piece may repeat, which is more than any file of the cases has.
const MOST_REPEATED: usize = 100_000_000;

/// The bytes of all pieces. What stands between quotes is text, and the pieces around it stand between blanks.
pub fn spelled(alloc: Global, pieces: &str, kept: &MemFiles) -> anyhow::Result<Vec<u8>> {
    let mut bytes = Vec::new(alloc);
    let mut is_text = true;
    for part in pieces.split('"') {
        is_text = !is_text;
        if is_text {
            push_text(&mut bytes, part)?;
        } else {
            push_pieces(&mut bytes, part, kept)?;
        }
    }
    ensure!(!is_text, "a quote is open");
    Ok(bytes)
}

fn push_pieces(bytes: &mut Vec<u8>, part: &str, kept: &MemFiles) -> anyhow::Result<()> {
    for piece in part.split_whitespace() {
        match piece.strip_prefix('=') {
            Some(name) => {
                let known = kept
                    .bytes(name)
                    .context(format_args!("nothing is kept as {name}"))?;
                bytes.extend_from_slice(known)?;
            }
            None => push_digits(bytes, piece)?,
        }
    }
    Ok(())
}

fn push_digits(bytes: &mut Vec<u8>, piece: &str) -> anyhow::Result<()> {
    let alloc = *bytes.allocator();
    let Some((times, digits)) = piece.split_once('*') else {
        let run = hex::decode(alloc, piece)?;
        bytes.extend_from_slice(&run)?;
        return Ok(());
    };
    let times = times.parse::<usize>()?;
    ensure!(times <= MOST_REPEATED, "a piece is repeated too often");
    push_times(bytes, times, &hex::decode(alloc, digits)?)
}

fn push_times(bytes: &mut Vec<u8>, times: usize, run: &[u8]) -> anyhow::Result<()> {
    if let [byte] = run {
        bytes.resize(bytes.len().saturating_add(times), *byte)?;
        return Ok(());
    }
    for _ in 0..times {
        bytes.extend_from_slice(run)?;
    }
    Ok(())
}

fn push_text(bytes: &mut Vec<u8>, text: &str) -> anyhow::Result<()> {
    let mut is_escape = false;
    for byte in text.bytes() {
        if is_escape {
            bytes.push(escaped(byte)?)?;
            is_escape = false;
        } else if byte == b'\\' {
            is_escape = true;
        } else {
            bytes.push(byte)?;
        }
    }
    ensure!(!is_escape, "a backslash ends a text");
    Ok(())
}

// The byte that a letter after a backslash stands for.
fn escaped(letter: u8) -> anyhow::Result<u8> {
    Ok(match letter {
        b'n' => b'\n',
        b'r' => b'\r',
        b't' => b'\t',
        b'0' => 0,
        b'q' => b'"',
        b'\\' => b'\\',
        _ => bail!("a backslash stands before another byte than n, r, t, 0, q and \\"),
    })
}
