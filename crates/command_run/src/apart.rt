// That no file is made in the place of one that was read.
ghost use Rattle.std.specs.Prelude.{◌≡◌, ℕ, map, option_map, string_bytes, IfErr};
ghost use Rattle.fri_outside.specs.Outside.{Counts};
ghost use Rattle.command_run.specs.Apart.{first_clash, unless_over_input, was_read};
ghost use Rattle.command_run.specs.Call.{CountsNothing, RaisesCount, TellsResult};

use crate::refusal::{Reason, StopCause};
use std::alloc::Global;

fn was_read(read: &[&str], name: &str) -> bool
    ensures { result ≡ was_read (map (λ file. file.now) read.now) name.now }
{
    read.iter().any(|file| name == *file)
}

// The first of the names to be made that was read.
fn first_clash<'a>(read: &[&str], made: &'a [String]) -> Option<&'a String>
    ensures { option_map (λ name. string_bytes name.now) result ≡ first_clash (map (λ file. file.now) read.now) (map string_bytes made.now) }
{
    made.iter().find(|name| was_read(read, name.as_str()))
}

/// Refuses the first of the names to be made that was read. Names are compared as they are spelled.
pub fn keep_apart(alloc: Global, read: &[&str], made: &[String]) -> Result<(), StopCause>
    ensures answer { TellsResult (λ done. done) (unless_over_input (map (λ file. file.now) read.now) (map string_bytes made.now)) result }
    ensures cause { (old new : Counts) → IfErr result (RaisesCount old new) }
    ensures still { CountsNothing result }
{
    match first_clash(read, made) {
        Some(name) => Err(StopCause::refuse(alloc, name, Reason::OverInput)),
        None => Ok(()),
    }
}
