// `cut P N MODULE LOG ..`: makes the logs that an event needs.
ghost use Rattle.std.specs.Prelude.{◌≡◌, All, false, map, option_map, IfErr, IfOk, OnOk};
ghost use Rattle.fri_outside.specs.Outside.{WhenTold};
ghost use Rattle.call_log.specs.Head.{IsHead};
ghost use Rattle.command_run.specs.Asked.{AsksAll, AsksFirst};
ghost use Rattle.command_run.specs.Call.{CountsFaults, DivergesOnlyIf, KeepsFolder, MakesWholeFiles, MakesAllFiles, RaisesCount, TellsOutcome};
ghost use Rattle.command_run.specs.Outcome.{writes_of};
ghost use Rattle.log_pairs.specs.Meanings.{pair_of};
ghost use Rattle.log_pairs.specs.Pairs.{pair_inputs};
ghost use Rattle.cut_command.specs.Cut.{cut_outcome};
ghost use Rattle.cut_command.specs.Laws.{CutsToPast};
ghost use Rattle.cut_command.specs.inside.Meanings.{front_file};

use crate::fronts::Front;
use crate::past::take_past;
use call_log::rewrite;
use command_run::{StopCause, WorkText};
use fri_outside::Files;
use log_pairs::{Pair, begin_all, load_all};
use process_files::write_file;
use std::alloc::Global;

// Makes the files of the logs, one after the other, each with the part of its log that is kept.
fn write_cuts<F: Files>(alloc: Global, fronts: &[Front<'_>], files: &mut F) -> Result<(), StopCause>
    requires { All (λ front. IsHead front.log.head) fronts.now }
    ensures made { MakesAllFiles result (map front_file fronts.now) (F.told files.old) (F.told files.new) }
    ensures counts { CountsFaults (F.counts files.old) (F.counts files.new) result }
    ensures asked { (F.counts files.new).asked ≡ (F.counts files.old).asked }
    ensures cause { IfErr result (RaisesCount (F.counts files.old) (F.counts files.new)) }
{
    for front in fronts {
        let bytes = rewrite(alloc, &front.log, front.kept)?;
        write_file(alloc, front.log.head().name, ".cut", &bytes, files)?;
    }
    Ok(())
}

/// Makes of each log of a group a file with the part of it that an event of a process needs. All files are read, and all
/// refusals made, before the first is written; after a fault the first of the files are made, each of them whole, and the
/// others are as before.
pub fn cut<F: Files>(
    alloc: Global,
    process: u32,
    event: u64,
    pairs: &[Pair<'_>],
    files: &mut F,
) -> Result<WorkText, StopCause>
    ensures tells { WhenTold (option_map (cut_outcome process event (map pair_of pairs.now)) (F.told files.old)) (λ outcome. TellsOutcome outcome result) }
    ensures makes { WhenTold (option_map (cut_outcome process event (map pair_of pairs.now)) (F.told files.old)) (λ outcome.
        MakesWholeFiles result (writes_of outcome) (F.told files.old) (F.told files.new)) }
    ensures keeps { KeepsFolder result (F.told files.old) (F.told files.new) }
    ensures done { DivergesOnlyIf false result }
    ensures counts { CountsFaults (F.counts files.old) (F.counts files.new) result }
    ensures asks { AsksFirst (pair_inputs (map pair_of pairs.now)) (F.counts files.old) (F.counts files.new) }
    ensures asks_all { OnOk result (AsksAll (pair_inputs (map pair_of pairs.now)) (F.counts files.old) (F.counts files.new)) }
    ensures cause { IfErr result (RaisesCount (F.counts files.old) (F.counts files.new)) }
    ensures least { WhenTold (F.told files.old) (λ folder. IfOk result (λ _. CutsToPast process event (map pair_of pairs.now) folder)) }
{
    let all = load_all(alloc, pairs, files)?;
    let replayers = begin_all(alloc, &all)?;
    let past = take_past(alloc, process, event, pairs, &all, replayers)?;
    write_cuts(alloc, &past.fronts, files)?;
    Ok(WorkText::Done(past.text))
}
