// The names of the images of processes.
ghost use Rattle.std.specs.Prelude.{◌≡◌, ℕ, All, IfErr, IfOk, map, string_bytes};
ghost use Rattle.fri_outside.specs.Outside.{Counts};
ghost use Rattle.call_log.specs.Head.{IsHead};
ghost use Rattle.command_run.specs.Apart.{unless_over_input};
ghost use Rattle.command_run.specs.Call.{CountsNothing, RaisesCount, TellsResult};
ghost use Rattle.log_pairs.specs.Meanings.{pair_of};
ghost use Rattle.log_pairs.specs.Pairs.{names_of_pairs};
ghost use Rattle.replay_command.specs.Report.{images_in, replay_work};

use command_run::{StopCause, keep_apart};
use log_pairs::{Pair, file_names};
use proc_replay::Replayer;
use process_files::process_file;
use std::alloc::{AllocError, Global};

fn image_names(alloc: Global, replayers: &[Replayer<'_, '_>]) -> Result<Vec<String>, AllocError>
    requires { All (λ r. IsHead r.head) replayers.now }
    ensures { IfOk result (λ names. map string_bytes names.items ≡ map (λ file. file.0) (images_in replayers.now)) }
{
    let mut names = Vec::new(alloc);
    for replayer in replayers {
        names.push(process_file(alloc, replayer.head().name, ".mem")?)?;
        names.push(process_file(alloc, replayer.head().name, ".out")?)?;
    }
    Ok(names)
}

// Refuses a file of these pairs if an image of its name would be made.
fn keep_from_images(
    alloc: Global,
    pairs: &[Pair<'_>],
    replayers: &[Replayer<'_, '_>],
) -> Result<(), StopCause>
    requires { All (λ r. IsHead r.head) replayers.now }
    ensures answer { TellsResult (λ done. done) (unless_over_input (names_of_pairs (map pair_of pairs.now)) (map (λ file. file.0) (images_in replayers.now))) result }
    ensures cause { (old new : Counts) → IfErr result (RaisesCount old new) }
    ensures still { CountsNothing result }
{
    let read = file_names(alloc, pairs)?;
    let made = image_names(alloc, replayers)?;
    keep_apart(alloc, &read, &made)
}

/// The same where images are asked for.
pub(crate) fn keep_pairs(
    alloc: Global,
    images: bool,
    pairs: &[Pair<'_>],
    replayers: &[Replayer<'_, '_>],
) -> Result<(), StopCause>
    requires { All (λ r. IsHead r.head) replayers.now }
    ensures answer { TellsResult (λ done. done) (unless_over_input (names_of_pairs (map pair_of pairs.now)) (map (λ file. file.0) (replay_work images replayers.now).writes)) result }
    ensures cause { (old new : Counts) → IfErr result (RaisesCount old new) }
    ensures still { CountsNothing result }
{
    if images {
        keep_from_images(alloc, pairs, replayers)
    } else {
        Ok(())
    }
}
