// Commands over the files and streams of the runtime, in the folder that the program is run in, with the words, what the call
// printed, its status, and the files that it made.
//
// This tests the adapters of `fri_outside` over the runtime: a recording that lies on a disk, files that are absent, too large
// or no files, files that are replaced, and a device that takes no byte. They tell nothing of what they hold, so no clause here
// says what is printed.

use fri_outside::{Console, ReaderSource, RealFiles, WriterSink};
use friday_app::{Status, friday};
use std::alloc::{AllocError, Global};
use std::fs::{self, OpenOptions};
use std::io::{self, Write};
use std::os::unix::fs::symlink;
use std::rt::Files;

/// The most bytes of a schedule that is read.
const MOST_SCHEDULE: usize = 16_777_216;

/// A schedule without items.
const FRONT: &str = "friday 1\nprocess ping ping.wasm\nprocess pong pong.wasm\n";

/// A device that takes no byte.
const FULL: &str = "/dev/full";

fn split_words(alloc: Global, words: &str) -> Result<Vec<String>, AllocError> {
    let mut list = Vec::new(alloc);
    for word in words.split_whitespace() {
        list.push(String::from_str(alloc, word)?)?;
    }
    Ok(list)
}

// Makes the call with these words, where this is typed, and closes the files. What it prints goes to this writer.
fn call<R: Files + AllocGlobal, W: Write + Drop>(
    rt: &R,
    words: &str,
    typed: &[u8],
    out: W,
) -> Result<(Status, bool), AllocError> {
    let words = split_words(rt.alloc(), words)?;
    let mut files = RealFiles::new(rt.alloc(), rt);
    let mut terminal = Console {
        input: ReaderSource::new(typed),
        out: WriterSink::new(out),
    };
    let status = friday(rt.alloc(), &words, &mut files, &mut terminal);
    Ok((status, !files.close().is_lost()))
}

// The call with what it prints, and how it ended.
fn play<R: Files + Print + AllocGlobal>(rt: &R, words: &str, typed: &str) -> io::Result<()> {
    println!(rt; "friday {words}")?;
    let (status, is_closed) = call(rt, words, typed.as_bytes(), io::writer(rt))?;
    println!(rt; "status {}, closed {is_closed}", status.number())
}

// The call whose output is a device that is full.
fn play_unheard<R: Files + Print + AllocGlobal>(rt: &R, words: &str) -> io::Result<()> {
    println!(rt; "friday {words} > {FULL}")?;
    let out = OpenOptions::new().write(true).open(rt, FULL)?;
    let (status, is_closed) = call(rt, words, b"", out)?;
    println!(rt; "status {}, closed {is_closed}", status.number())
}

// The bytes of a file, as digits.
fn show<R: Files + Print + AllocGlobal>(rt: &R, name: &str) -> io::Result<()> {
    match fs::read(rt, name) {
        Ok(bytes) => println!(rt; "{name}: {}", hex::encode(rt.alloc(), bytes.as_slice())?),
        Err(_) => println!(rt; "{name}: absent"),
    }
}

// How long a file is.
fn measure<R: Files + Print>(rt: &R, name: &str) -> io::Result<()> {
    println!(rt; "{name}: {} bytes", fs::metadata(rt, name)?.len())
}

// A schedule of so many bytes, all but the first of which are of comments.
fn write_long<R: Files + AllocGlobal>(rt: &R, name: &str, len: usize) -> io::Result<()> {
    let mut bytes = fs::read(rt, "schedule")?;
    for at in bytes.len()..len {
        let last = at + 1 == len || at % 64 == 63;
        bytes.push(if last { b'\n' } else { b'#' })?;
    }
    fs::write(rt, name, bytes.as_slice())
}

fn record_and_replay<R: Files + Print + AllocGlobal>(rt: &R) -> io::Result<()> {
    play(rt, "record --images schedule", "")?;
    show(rt, "ping.log")?;
    show(rt, "pong.log")?;
    measure(rt, "ping.mem")?;
    show(rt, "ping.out")?;
    play(
        rt,
        "replay --images ping.wasm ping.log pong.wasm pong.log",
        "",
    )?;
    measure(rt, "pong.mem")?;
    play(
        rt,
        "debug ping.wasm ping.log pong.wasm pong.log",
        "goto 9\nmem ping 66552 8\nthreads pong\nquit\nstep\n",
    )
}

fn play_on<R: Files + Print + AllocGlobal>(rt: &R) -> io::Result<()> {
    play(
        rt,
        "play schedule",
        "processes\nrun 0 0\nagain\nquit\nrun 0 0\n",
    )?;
    fs::write(rt, "front", FRONT.as_bytes())?;
    play(rt, "play front", "run 0 0 2\nkill 2\nprocesses\n")
}

fn refuse<R: Files + Print + AllocGlobal>(rt: &R) -> io::Result<()> {
    play(rt, "replay ping.wasm none.log", "")?;
    play(rt, "replay ping.wasm schedule", "")?;
    play(rt, "replay . ping.log", "")?;
    play(rt, "record .", "")?;
    play(rt, "play none", "run 0 0\n")?;
    play(rt, "play .", "run 0 0\n")?;
    write_long(rt, "long", MOST_SCHEDULE)?;
    play(rt, "record long", "")?;
    write_long(rt, "longer", MOST_SCHEDULE + 1)?;
    play(rt, "record longer", "")
}

// A log takes its own place, that of a file behind a link, and that of what is no regular file.
fn rewrite<R: Files + Print + AllocGlobal>(rt: &R) -> io::Result<()> {
    play(rt, "migrate ping.log ping.log", "")?;
    show(rt, "ping.log")?;
    fs::write(rt, "older", "old")?;
    symlink(rt, "older", "link")?;
    play(rt, "migrate ping.log link", "")?;
    show(rt, "older")?;
    show(rt, "older.friday-new")?;
    let is_link = fs::symlink_metadata(rt, "link")?.is_symlink();
    println!(rt; "link is a link: {is_link}")?;
    play(rt, "migrate ping.log /dev/null", "")?;
    play(rt, "migrate ping.log /dev/full", "")?;
    play(rt, "migrate ping.log none/new.log", "")
}

// A file stays if nothing can be made beside it, and a folder takes no file's place.
fn stay<R: Files + Print + AllocGlobal>(rt: &R) -> io::Result<()> {
    fs::write(rt, "kept", "old")?;
    fs::create_dir(rt, "kept.friday-new")?;
    play(rt, "migrate ping.log kept", "")?;
    show(rt, "kept")?;
    play(rt, "migrate ping.log kept.friday-new", "")
}

fn fill<R: Files + Print + AllocGlobal>(rt: &R) -> io::Result<()> {
    play_unheard(rt, "replay ping.wasm ping.log")?;
    play_unheard(rt, "debug ping.wasm ping.log")?;
    play_unheard(rt, "play front")?;
    fs::remove_file(rt, "pong.log")?;
    symlink(rt, FULL, "pong.log")?;
    play(rt, "record schedule", "")?;
    show(rt, "ping.log")?;
    fs::remove_file(rt, "pong.log")
}

pub fn play_real_files<R: Files + Print + AllocGlobal>(rt: &R) -> io::Result<()> {
    record_and_replay(rt)?;
    play_on(rt)?;
    refuse(rt)?;
    rewrite(rt)?;
    stay(rt)?;
    fill(rt)
}
