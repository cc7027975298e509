// The newer form of a log, and what is said of it.
ghost use Rattle.std.specs.Prelude.{◌≡◌, ◌∷◌, ℕ, [], List, IfErr, IfOk, OnOk, length};
ghost use Rattle.fri_outside.specs.Outside.{Counts, WhenTold};
ghost use Rattle.call_log.specs.Log.{entries_of, rest_of_log};
ghost use Rattle.command_run.specs.Asked.{AsksAll, AsksFirst};
ghost use Rattle.command_run.specs.Call.{CountsFaults, CountsNothing, RaisesCount, TellsResult};
ghost use Rattle.migrate_command.specs.Migrate.{migrate_outcome, migrate_text, work_unless_grown};
ghost use Rattle.migrate_command.specs.inside.Meanings.{work_of_migration};

use call_log::{LogView, MOST_LOG, rewrite};
use command_run::{Reason, StopCause, begin_log, take_log};
use fri_outside::Files;
use fri_text::Text;
use std::alloc::{AllocError, Global};

/// A migration that was made ready: the bytes of the new log, and the text that tells what was migrated.
#[derive(Drop)]
pub(crate) struct Migration {
    pub(crate) bytes: Vec<u8>,
    pub(crate) text: Text,
}

// How many entries a log has, and how many bytes are left after them.
#[derive(Clone, Copy)]
struct Extent {
    entries: u64,
    left: u64,
}

fn extent_of(log: &LogView<'_>) -> Extent
    ensures entries { result.entries ≡ length (entries_of log.now.left) }
    ensures left { result.left ≡ length (rest_of_log log.now.left) }
{
    // The proof needs that what is left is a slice, and so shorter than 2 ^ 63 bytes.
    let _ = log.unread().len();
    let mut behind = log.copy();
    let mut entries = 0;
    'entries: while let Some(_) = behind.next_entry() {
        entries += 1;
    }
    let left = behind.unread().len() as u64;
    Extent { entries, left }
}

fn print(alloc: Global, name: &[u8], extent: Extent) -> Result<Text, AllocError>
    ensures { IfOk result (λ text. text ≡ migrate_text name.now extent.entries extent.left) }
{
    let mut text = Text::new(alloc);
    text.push_bytes(name)?;
    text.push_str(": ")?;
    text.push_u64(extent.entries)?;
    text.push_str(" entries, ")?;
    text.push_u64(extent.left)?;
    text.push_str(" bytes left out\n")?;
    Ok(text)
}

// Makes ready the migration of a log, whose file is refused where the newer form would pass the limit.
fn renew(alloc: Global, log_file: &str, log: &LogView<'_>) -> Result<Migration, StopCause>
    ensures answer { (new_name : List ℕ)
        → TellsResult (work_of_migration new_name) (work_unless_grown log_file.now new_name (log.now.head, log.now.left)) result }
    ensures cause { (old new : Counts) → IfErr result (RaisesCount old new) }
    ensures still { CountsNothing result }
{
    let extent = extent_of(log);
    let bytes = rewrite(alloc, log, extent.entries)?;
    if bytes.len() > MOST_LOG {
        return Err(StopCause::refuse(alloc, log_file, Reason::Grown));
    }
    let text = print(alloc, log.head().name, extent)?;
    Ok(Migration { bytes, text })
}

/// Reads a log, and makes its migration ready. No file has changed.
pub(crate) fn take_migration<F: Files>(
    alloc: Global,
    log_file: &str,
    files: &mut F,
) -> Result<Migration, StopCause>
    ensures answer { (new_name : List ℕ) → WhenTold (F.told files.old) (λ folder. TellsResult (work_of_migration new_name) (migrate_outcome log_file.now new_name folder) result) }
    ensures same { F.told files.new ≡ F.told files.old }
    ensures counts { CountsFaults (F.counts files.old) (F.counts files.new) result }
    ensures asks { AsksFirst (log_file.now ∷ []) (F.counts files.old) (F.counts files.new) }
    ensures asks_all { OnOk result (AsksAll (log_file.now ∷ []) (F.counts files.old) (F.counts files.new)) }
    ensures cause { IfErr result (RaisesCount (F.counts files.old) (F.counts files.new)) }
{
    let bytes = take_log(alloc, log_file, files)?;
    let log = begin_log(alloc, log_file, bytes)?;
    renew(alloc, log_file, &log.view())
}
