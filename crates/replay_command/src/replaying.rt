// `replay [--images] MODULE LOG ..`: the events of a group's logs, made again.
ghost use Rattle.std.specs.Prelude.{◌≡◌, All, Err, List, map, option_map, IfErr, IfOk, OnOk};
ghost use Rattle.fri_outside.specs.Outside.{WhenTold};
ghost use Rattle.fri_outside.specs.Several.{with_files};
ghost use Rattle.call_log.specs.Head.{IsHead};
ghost use Rattle.command_run.specs.Asked.{AsksAll, AsksFirst};
ghost use Rattle.command_run.specs.Call.{CountsFaults, KeepsFolder, MakesWholeFiles, MakesAllFiles, RaisesCount, TellsOutcome};
ghost use Rattle.command_run.specs.Outcome.{writes_of};
ghost use Rattle.replay_command.specs.Report.{images_in, replay_outcome, replay_work};
ghost use Rattle.replay_command.specs.inside.Reporting.{SaysSame};
ghost use Rattle.log_pairs.specs.Meanings.{pair_of};
ghost use Rattle.log_pairs.specs.Pairs.{pair_inputs};

use crate::names::keep_pairs;
use crate::report::print_report;
use command_run::{StopCause, WorkText};
use fri_outside::Files;
use group_state::Reporter;
use log_pairs::{Pair, begin_all, load_all};
use process_files::write_image;
use std::alloc::Global;

// Replays each log and writes what its process leaves, in order of the processes' numbers.
fn write_images<'m, 'a, F: Files>(
    alloc: Global,
    reporter: Reporter<'m, 'a>,
    files: &mut F,
) -> Result<Reporter<'m, 'a>, StopCause>
    requires { All (λ r. IsHead r.head) reporter.left }
    ensures made { IfOk result (λ _. F.told files.new ≡ with_files (images_in reporter.entry.left) (F.told files.old)) }
    ensures part { IfErr result (λ why. MakesAllFiles (Err why) (images_in reporter.entry.left) (F.told files.old) (F.told files.new)) }
    ensures same { IfOk result (SaysSame reporter.entry) }
    ensures counts { CountsFaults (F.counts files.old) (F.counts files.new) result }
    ensures asked { (F.counts files.new).asked ≡ (F.counts files.old).asked }
    ensures cause { IfErr result (RaisesCount (F.counts files.old) (F.counts files.new)) }
{
    let mut reporter = reporter;
    'images: loop {
        let (next, image) = reporter.next_image(alloc)?;
        reporter = next;
        let Some((head, image)) = image else {
            return Ok(reporter);
        };
        write_image(
            alloc,
            head.name,
            image.memory.as_slice(),
            image.printed.as_slice(),
            files,
        )?;
    }
}

// The same if images were asked for, and else nothing.
fn write_asked<'m, 'a, F: Files>(
    alloc: Global,
    images: bool,
    reporter: Reporter<'m, 'a>,
    files: &mut F,
) -> Result<Reporter<'m, 'a>, StopCause>
    requires { All (λ r. IsHead r.head) reporter.left }
    ensures made { IfOk result (λ _. F.told files.new ≡ with_files (replay_work images reporter.entry.left).writes (F.told files.old)) }
    ensures part { IfErr result (λ why. MakesAllFiles (Err why) (replay_work images reporter.entry.left).writes (F.told files.old) (F.told files.new)) }
    ensures same { IfOk result (SaysSame reporter.entry) }
    ensures counts { CountsFaults (F.counts files.old) (F.counts files.new) result }
    ensures asked { (F.counts files.new).asked ≡ (F.counts files.old).asked }
    ensures cause { IfErr result (RaisesCount (F.counts files.old) (F.counts files.new)) }
{
    if images {
        write_images(alloc, reporter, files)
    } else {
        Ok(reporter)
    }
}

/// Replays the logs of a group, each by its module, and says what came of each and of all. With `images` the files
/// of what the processes leave are made before, each of them whole. After a fault the first of them are made, and the others
/// are as before.
pub fn replay<F: Files>(
    alloc: Global,
    images: bool,
    pairs: &[Pair<'_>],
    files: &mut F,
) -> Result<WorkText, StopCause>
    ensures tells { WhenTold (option_map (replay_outcome images (map pair_of pairs.now)) (F.told files.old)) (λ outcome. TellsOutcome outcome result) }
    ensures makes { WhenTold (option_map (replay_outcome images (map pair_of pairs.now)) (F.told files.old)) (λ outcome.
        MakesWholeFiles result (writes_of outcome) (F.told files.old) (F.told files.new)) }
    ensures keeps { KeepsFolder result (F.told files.old) (F.told files.new) }
    ensures counts { CountsFaults (F.counts files.old) (F.counts files.new) result }
    ensures asks { AsksFirst (pair_inputs (map pair_of pairs.now)) (F.counts files.old) (F.counts files.new) }
    ensures asks_all { OnOk result (AsksAll (pair_inputs (map pair_of pairs.now)) (F.counts files.old) (F.counts files.new)) }
    ensures cause { IfErr result (RaisesCount (F.counts files.old) (F.counts files.new)) }
{
    let all = load_all(alloc, pairs, files)?;
    let replayers = begin_all(alloc, &all)?;
    keep_pairs(alloc, images, pairs, &replayers)?;
    let begun = Reporter::begin(alloc, replayers);
    let reporter = write_asked(alloc, images, begun, files)?;
    let report = reporter.finish(alloc)?;
    Ok(print_report(alloc, &report)?)
}
