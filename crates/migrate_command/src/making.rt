// `migrate LOG NEW`: makes the file that has the newer form of a log.
ghost use Rattle.std.specs.Prelude.{◌≡◌, [], ◌∷◌, false, option_map, IfErr, OnOk};
ghost use Rattle.fri_outside.specs.Outside.{WhenTold};
ghost use Rattle.command_run.specs.Asked.{AsksAll, AsksFirst};
ghost use Rattle.command_run.specs.Call.{CountsFaults, DivergesOnlyIf, KeepsFolder, MakesWholeFiles, MakesAllFiles, RaisesCount, TellsOutcome};
ghost use Rattle.command_run.specs.Outcome.{writes_of};
ghost use Rattle.migrate_command.specs.Migrate.{migrate_outcome};

use crate::newer::{Migration, take_migration};
use command_run::{StopCause, WorkText};
use fri_outside::Files;
use std::alloc::Global;

// Makes a file that has these bytes, in place of one of that name.
fn make_file<F: Files>(name: &str, bytes: &[u8], files: &mut F) -> Result<(), StopCause>
    ensures made { MakesAllFiles result ((name.now, bytes.now) ∷ []) (F.told files.old) (F.told files.new) }
    ensures counts { CountsFaults (F.counts files.old) (F.counts files.new) result }
    ensures asked { (F.counts files.new).asked ≡ (F.counts files.old).asked }
    ensures cause { IfErr result (RaisesCount (F.counts files.old) (F.counts files.new)) }
{
    files.replace(name, bytes)?;
    Ok(())
}

/// Makes a file that has the log of another in the newer form. The log is read before the file is made, so both may have
/// one name. What stood under the new name stands until the file is whole, and after a fault.
pub fn migrate<F: Files>(
    alloc: Global,
    log_file: &str,
    new_file: &str,
    files: &mut F,
) -> Result<WorkText, StopCause>
    ensures tells { WhenTold (option_map (migrate_outcome log_file.now new_file.now) (F.told files.old)) (λ outcome. TellsOutcome outcome result) }
    ensures makes { WhenTold (option_map (migrate_outcome log_file.now new_file.now) (F.told files.old)) (λ outcome.
        MakesWholeFiles result (writes_of outcome) (F.told files.old) (F.told files.new)) }
    ensures keeps { KeepsFolder result (F.told files.old) (F.told files.new) }
    ensures done { DivergesOnlyIf false result }
    ensures counts { CountsFaults (F.counts files.old) (F.counts files.new) result }
    ensures asks { AsksFirst (log_file.now ∷ []) (F.counts files.old) (F.counts files.new) }
    ensures asks_all { OnOk result (AsksAll (log_file.now ∷ []) (F.counts files.old) (F.counts files.new)) }
    ensures cause { IfErr result (RaisesCount (F.counts files.old) (F.counts files.new)) }
{
    let Migration { bytes, text } = take_migration(alloc, log_file, files)?;
    make_file(new_file, &bytes, files)?;
    Ok(WorkText::Done(text))
}
