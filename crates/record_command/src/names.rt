// The names of the files that a recording makes.
ghost use Rattle.std.specs.Prelude.{◌≡◌, ◌∷◌, [], ◌++◌, ℕ, All, IfErr, IfOk, OnOk, map, string_bytes};
ghost use Rattle.fri_outside.specs.Outside.{Counts};
ghost use Rattle.schedule_text.specs.Schedule.{IsProcess};
ghost use Rattle.command_run.specs.Apart.{unless_over_input};
ghost use Rattle.command_run.specs.Call.{CountsNothing, RaisesCount, TellsResult};
ghost use Rattle.record_command.specs.Expected.{image_names, made_names};

use command_run::{StopCause, keep_apart};
use process_files::process_file;
use schedule_text::{ProcessLine, Schedule};
use std::alloc::{AllocError, Global};

// Adds the name of the file of each process that ends so.
fn push_names(
    alloc: Global,
    lines: &[ProcessLine],
    ending: &str,
    names: &mut Vec<String>,
) -> Result<(), AllocError>
    requires { All IsProcess lines.now }
    ensures { OnOk result (map string_bytes names.new.items ≡ map string_bytes names.old.items ++ map (λ line. line.name ++ ending.now) lines.now) }
{
    for line in lines {
        names.push(process_file(alloc, line.name.as_slice(), ending)?)?;
    }
    Ok(())
}

// Adds the names of the images, where they are asked for.
fn push_images(
    alloc: Global,
    images: bool,
    lines: &[ProcessLine],
    names: &mut Vec<String>,
) -> Result<(), AllocError>
    requires { All IsProcess lines.now }
    ensures { OnOk result (map string_bytes names.new.items ≡ map string_bytes names.old.items ++ image_names images lines.now) }
{
    if !images {
        return Ok(());
    }
    push_names(alloc, lines, ".mem", names)?;
    push_names(alloc, lines, ".out", names)
}

fn made_names(alloc: Global, images: bool, schedule: &Schedule) -> Result<Vec<String>, AllocError>
    ensures { IfOk result (λ names. map string_bytes names.items ≡ made_names images schedule.now) }
{
    let lines = schedule.processes();
    let mut names = Vec::new(alloc);
    push_names(alloc, lines, ".log", &mut names)?;
    push_images(alloc, images, lines, &mut names)?;
    Ok(names)
}

/// Refuses the file of a schedule if one of its name would be made.
pub(crate) fn keep_schedule(
    alloc: Global,
    images: bool,
    schedule_file: &str,
    schedule: &Schedule,
) -> Result<(), StopCause>
    ensures answer { TellsResult (λ done. done) (unless_over_input (schedule_file.now ∷ []) (made_names images schedule.now)) result }
    ensures cause { (old new : Counts) → IfErr result (RaisesCount old new) }
    ensures still { CountsNothing result }
{
    let made = made_names(alloc, images, schedule)?;
    keep_apart(alloc, &[schedule_file], &made)
}
