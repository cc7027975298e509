// Writes the text that a call ends with, and gives its status.
ghost use Rattle.std.specs.Prelude.{◌≡◌, ◌≢◌, ◌++◌, [], ℕ, List, Option, Some, Err, IfOk, OnOk};
ghost use Rattle.fri_outside.specs.Outside.{Counts, Folder};
ghost use Rattle.command_run.specs.Outcome.{CommandOutcome, NotACommand, absent_line, reason_text, refused_line};
ghost use Rattle.command_run.specs.Call.{IsAnswerStatus, PrintsText, failed_says_after};
ghost use Rattle.command_run.specs.inside.Finishing.{FinishesCall, output_state};
ghost use Rattle.command_run.specs.Run.{CallEnds, Expectation, FileState, FinishedCommand, Outside, PerformedCommand, outside};

use crate::refusal::{Reason, StopCause, WorkText};
use crate::status::Status;
use fri_outside::{Sink, WriteError, write_whole};
use fri_text::Text;
use std::alloc::{AllocError, Global};

fn push_reason(text: &mut Text, reason: Reason) -> Result<(), AllocError>
    ensures { OnOk result (text.new ≡ text.old ++ reason_text reason) }
{
    match reason {
        Reason::TooLarge => text.push_str("TooLarge"),
        Reason::BadLine(line) => {
            text.push_str("line ")?;
            text.push_u64(line)?;
            text.push_str(" BadLine")?;
            Ok(())
        }
        Reason::TooMany => text.push_str("TooMany"),
        Reason::LogFull(item) => {
            text.push_str("item ")?;
            text.push_u64(item)?;
            text.push_str(" LogFull")?;
            Ok(())
        }
        Reason::Malformed => text.push_str("1 Malformed"),
        Reason::HasFloat => text.push_str("2 HasFloat"),
        Reason::BadImport => text.push_str("3 BadImport"),
        Reason::Untyped => text.push_str("4 Untyped"),
        Reason::OverLimit => text.push_str("5 OverLimit"),
        Reason::NoStart => text.push_str("6 NoStart"),
        Reason::BadSegment => text.push_str("7 BadSegment"),
        Reason::BadHead => text.push_str("1 BadHead"),
        Reason::OtherGroup => text.push_str("2 OtherGroup"),
        Reason::SameProcess => text.push_str("3 SameProcess"),
        Reason::SameName => text.push_str("4 SameName"),
        Reason::Grown => text.push_str("6 Grown"),
        Reason::Incomplete => text.push_str("7 Incomplete"),
        Reason::NotWhole => text.push_str("8 NotWhole"),
        Reason::BadModuleName => text.push_str("9 BadModuleName"),
        Reason::TooManyEvents => text.push_str("10 TooManyEvents"),
        Reason::TooLong => text.push_str("11 TooLong"),
        Reason::NoProcess => text.push_str("12 NoProcess"),
        Reason::NoEvent => text.push_str("13 NoEvent"),
        Reason::OverInput => text.push_str("14 OverInput"),
    }
}

fn print_refused(alloc: Global, file: &str, reason: Reason) -> Result<Text, AllocError>
    ensures { IfOk result (λ text. text ≡ refused_line file.now reason) }
{
    let mut text = Text::new(alloc);
    text.push_str("friday: refused ")?;
    text.push_str(file)?;
    text.push_str(": ")?;
    push_reason(&mut text, reason)?;
    text.push_str("\n")?;
    Ok(text)
}

fn print_absent(alloc: Global, file: &str) -> Result<Text, AllocError>
    ensures { IfOk result (λ text. text ≡ absent_line file.now) }
{
    let mut text = Text::new(alloc);
    text.push_str("friday: absent ")?;
    text.push_str(file)?;
    text.push_str("\n")?;
    Ok(text)
}

// Writes a text, and gives the status that the call then has.
fn say<K: Sink>(out: &mut K, text: &[u8], status: Status) -> Status
    requires { IsAnswerStatus status }
    ensures status { IsAnswerStatus result → result ≡ status }
    ensures text { PrintsText result text.now (K.taken out.old) (K.taken out.new) }
    ensures read_fault { result ≢ Status.ReadFault }
    ensures counted { K.faults out.new ≡ failed_says_after (K.faults out.old) result }
    ensures heard { K.hearing out.new ≡ K.hearing out.old }
{
    match write_whole(out, text) {
        Ok(()) => status,
        Err(WriteError::Failed) => Status::WriteFault,
        Err(WriteError::NoMemory) => Status::NoMemory,
    }
}

/// Writes the line that refuses a file.
pub fn say_refused<K: Sink>(alloc: Global, file: &str, reason: Reason, out: &mut K) -> Status
    ensures status { IsAnswerStatus result → result ≡ Status.Refused }
    ensures text { PrintsText result (refused_line file.now reason) (K.taken out.old) (K.taken out.new) }
    ensures read_fault { result ≢ Status.ReadFault }
    ensures counted { K.faults out.new ≡ failed_says_after (K.faults out.old) result }
    ensures heard { K.hearing out.new ≡ K.hearing out.old }
{
    match print_refused(alloc, file, reason) {
        Ok(line) => say(out, line.bytes(), Status::Refused),
        Err(_) => Status::NoMemory,
    }
}

fn say_absent<K: Sink>(alloc: Global, file: &str, out: &mut K) -> Status
    ensures status { IsAnswerStatus result → result ≡ Status.Absent }
    ensures text { PrintsText result (absent_line file.now) (K.taken out.old) (K.taken out.new) }
    ensures read_fault { result ≢ Status.ReadFault }
    ensures counted { K.faults out.new ≡ failed_says_after (K.faults out.old) result }
    ensures heard { K.hearing out.new ≡ K.hearing out.old }
{
    match print_absent(alloc, file) {
        Ok(line) => say(out, line.bytes(), Status::Absent),
        Err(_) => Status::NoMemory,
    }
}

// Writes the outcome of a command's result.
fn print_end<K: Sink>(alloc: Global, ended: Result<WorkText, StopCause>, out: &mut K) -> Status
    ensures ends { FinishesCall ended result (output_state (K.taken out.old) (K.faults out.old)) (output_state (K.taken out.new) (K.faults out.new)) }
    ensures heard { K.hearing out.new ≡ K.hearing out.old }
{
    match ended {
        Ok(WorkText::Done(text)) => say(out, text.bytes(), Status::Done),
        Ok(WorkText::Diverged(text)) => say(out, text.bytes(), Status::Diverged),
        Err(StopCause::Refused(file, reason)) => say_refused(alloc, &file, reason, out),
        Err(StopCause::Absent(file)) => say_absent(alloc, &file, out),
        Err(StopCause::ReadFault) => Status::ReadFault,
        Err(StopCause::WriteFault) => Status::WriteFault,
        Err(StopCause::NoMemory) => Status::NoMemory,
    }
}

/// Writes the outcome of a command's result, and ends the call. What the files were before the command and are after it,
/// and how their faults were counted, is what the command says of its result.
pub fn finish<K: Sink>(alloc: Global, ended: Result<WorkText, StopCause>, out: &mut K) -> Status
    ensures { (expected : Expectation) (old new : FileState) → PerformedCommand expected old new ended → FinishedCommand expected ended
        (outside old.told old.counts (K.hearing out.old) (K.taken out.old) (K.faults out.old))
        (outside new.told new.counts (K.hearing out.new) (K.taken out.new) (K.faults out.new))
        result }
{
    print_end(alloc, ended, out)
}

/// Says that the words are no command.
pub fn refuse_words<K: Sink>(out: &mut K) -> Status
    ensures ends { (told : Option Folder) (counts : Counts) → CallEnds (Some (Err NotACommand)) (λ folder. [])
        (outside told counts (K.hearing out.old) (K.taken out.old) (K.faults out.old))
        (outside told counts (K.hearing out.new) (K.taken out.new) (K.faults out.new))
        result }
    ensures status { IsAnswerStatus result → result ≡ Status.Usage }
    ensures read_fault { result ≢ Status.ReadFault }
    ensures heard { K.hearing out.new ≡ K.hearing out.old }
{
    say(
        out,
        b"friday: these words are not a command\n",
        Status::Usage,
    )
}

/// Ends a call for want of memory, before anything was read.
pub fn give_up() -> Status
    ensures ends { (expected : Option CommandOutcome) (written : Folder → List (List ℕ)) (o : Outside) → CallEnds expected written o o result }
    ensures status { result ≡ Status.NoMemory }
{
    Status::NoMemory
}
