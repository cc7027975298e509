//! Plays a script of cases over files in memory, and then commands over the files of the folder, and prints what came of each
//! command as a transcript.
//!
//! A script is text in lines. A line without words, and one whose first byte is `#`, is passed over. NAME has no
//! blanks. BYTES are pieces between blanks, put together: hexadecimal digits, `N*DIGITS` for N times the same, `=NAME`
//! for what was kept, and text between quotes, in which `\n`, `\r`, `\t`, `\0`, `\q` and `\\` stand for a line feed, a
//! carriage return, a tab, a zero, a quote and a backslash. WORDS are the words of a command line between blanks,
//! where `''` stands for an empty word.
//!
//! | line | what it does |
//! |---|---|
//! | `keep NAME BYTES` | keeps the bytes for all cases |
//! | `case TEXT` | begins a case, with no files and an empty input |
//! | `file NAME BYTES` | sets the bytes of a file |
//! | `add NAME BYTES` | puts the bytes at the end of a file |
//! | `cut NAME N` | leaves the first N bytes of a file |
//! | `set NAME AT BYTES` | puts the bytes over those of a file, from an offset on |
//! | `input N BYTES` | hands the bytes in to each command that the case makes, of which a read gives N at most |
//! | `fail files N` | lets the call of this number fail, of those on files that the case makes |
//! | `fail input N`, `fail output N` | lets the read or the write of this number fail, of those that the next command makes |
//! | `run WORDS` | makes the call with these words |
//! | `both WORDS ; WORDS` | makes the call with the first words, and if its work is done the one with the second, by `record_and_show` |
//! | `stop N WORDS` | makes the call with these words, of whose calls on the files the first N come through and no other, by `friday_stopped` |
//! | `sum WORDS` | makes the call with these words, and tells the SHA-256 of what it prints |
//! | `cuts NAME A B WORDS` | makes the call for each N from A to B, with the first N bytes of a file in its place |
//! | `turns NAME A B WORDS` | makes the call for each N from A to B, with all bits turned in the byte at N of a file |
//! | `flips NAME A B WORDS` | the same, with the lowest bit alone turned |
//! | `show NAME` | tells what a file holds: all of a short one, and the SHA-256 of a long one |
//!
//! A line that is none of these, or cannot be done, is told with its number, and the script goes on.
//!
//! A `both` whose first words record is an instance of the main theorem: the contract of `record_and_show` says that what the
//! second call shows is what the first recorded.
#![tactic(auto)]

mod bytes;
mod order;
mod outcome;
mod play;
mod real;

use play::Session;
use real::play_real_files;
use std::alloc::Global;
use std::io::{self, BufRead, BufReader, BufWriter, Write};

// Does what a line asks for, and prints what came of it.
fn play_line<W: Write>(
    session: &mut Session,
    number: usize,
    line: &str,
    out: &mut W,
) -> io::Result<()> {
    match session.perform(line) {
        Ok(text) => out.write_all(text.as_bytes()),
        Err(error) => writeln!(out, "line {number}: {error}"),
    }
}

fn play_script<R: BufRead + Drop, W: Write>(
    alloc: Global,
    script: R,
    out: &mut W,
) -> io::Result<()> {
    let mut session = Session::new(alloc);
    for (index, line) in script.lines(alloc).enumerate() {
        play_line(&mut session, index + 1, line?.as_str(), out)?;
    }
    Ok(())
}

fn main(rt: HostRuntime) -> io::Result<()> {
    let alloc = rt.alloc();
    let script = BufReader::new(alloc, rt.reader())?;
    let mut out = BufWriter::new(alloc, io::writer(&rt))?;
    play_script(alloc, script, &mut out)?;
    out.flush()?;
    play_real_files(&rt)
}
