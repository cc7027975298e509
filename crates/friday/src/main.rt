//! The program: hands the command line's words, the files, standard input and standard output to the top call, and ends with
//! its status.
//!
//! All that it prints and makes is done by `friday` of `friday_app`, whose contract says what. What clauses here say is
//! how the call's status goes on once the files are closed: a file that cannot be closed makes a write fault of an answer,
//! and no status that is a fault already changes. That they are closed, and that the program ends with what comes of that,
//! is said by types: the files cannot be let go, and only what closing them tells makes an `Ending`. Where a standard stream
//! is closed, `/dev/null` takes its descriptor first, so that no file gets what is printed.
//!
//! Its stored run is a recording that fills its log, so it ends with the status of a refusal after most of its work.
#![tactic(auto)]

mod ending;

ghost use Rattle.std.specs.Prelude.{map, string_bytes};
ghost use Rattle.friday_app.specs.Command.{command_of};
ghost use Rattle.friday_app.specs.Run.{IsExactUsage};

use ending::Ending;
use fri_outside::{Console, ReaderSource, RealFiles, WriterSink};
use friday_app::{Status, friday};
use std::process::ExitCode;
use std::rt::{Env, Files};
use std::{env, fs, io};

/// The status where the words cannot be had, as where one is not UTF-8.
const NO_WORDS: u8 = 8;

// The words of the command line, without the program's own name.
fn words<R: Env + AllocGlobal>(rt: &R) -> io::Result<Vec<String>> {
    let mut words = Vec::new(rt.alloc());
    for word in env::args(rt)?.skip(1) {
        words.push(word)?;
    }
    Ok(words)
}

// The device that takes the place of a standard stream that is closed.
const NULL: &str = "/dev/null";

// Runs what all these words say: they name no command exactly if the status says so, but for a fault or want of memory.
fn run<R: Files + Input + Print + AllocGlobal>(rt: &R, words: &[String]) -> Ending
    ensures usage { IsExactUsage (command_of (map string_bytes words.now)) result }
{
    // The system gives a file the lowest free descriptor. Where standard input, output or error was closed, one of these
    // takes its descriptor, so that no log or image gets what is printed: a write to them fails, since they are for reading.
    let _input = fs::open(rt, NULL);
    let _output = fs::open(rt, NULL);
    let _errors = fs::open(rt, NULL);
    let mut files = RealFiles::new(rt.alloc(), rt);
    let mut terminal = Console {
        input: ReaderSource::new(rt.reader()),
        out: WriterSink::new(io::writer(rt)),
    };
    let status = friday(rt.alloc(), words, &mut files, &mut terminal);
    Ending::new(status, files.close())
}

fn main(rt: HostRuntime) -> ExitCode {
    match words(&rt) {
        Ok(words) => ExitCode::from(run(&rt, &words).number()),
        Err(error) if error.kind() == io::ErrorKind::OutOfMemory => {
            ExitCode::from(Status::NoMemory.number())
        }
        Err(_) => ExitCode::from(NO_WORDS),
    }
}
