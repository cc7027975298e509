// The logs that files hold.
ghost use Rattle.std.specs.Prelude.{◌≡◌, ◌∷◌, ℕ, ◌≤◌, ◌++◌, [], vec_len, IfOk, IfErr, OnOk};
ghost use Rattle.fri_outside.specs.Outside.{WhenTold, Counts};
ghost use Rattle.call_log.specs.Head.{IsHead, head_bytes};
ghost use Rattle.call_log.specs.Limits.{most_log};
ghost use Rattle.call_log.specs.Log.{head_at};
ghost use Rattle.command_run.specs.declared.refusal.Reason.TheVariants as reason;
ghost use Rattle.command_run.specs.Asked.{AsksAll, AsksFirst};
ghost use Rattle.command_run.specs.Call.{CountsFaults, CountsNothing, RaisesCount, TellsResult};
ghost use Rattle.command_run.specs.Outcome.{file_of, some_or_refused};

use crate::inputs::take_file;
use crate::refusal::{Reason, StopCause};
use call_log::{LogBuf, MOST_LOG};
use fri_outside::Files;
use std::alloc::Global;

/// The bytes of a log file, within the limit of a log.
pub fn take_log<F: Files>(alloc: Global, name: &str, files: &mut F) -> Result<Vec<u8>, StopCause>
    ensures answer { WhenTold (F.told files.old) (λ folder. TellsResult (λ bytes. bytes.items) (file_of folder name.now most_log) result) }
    ensures within { IfOk result (λ bytes. vec_len bytes ≤ most_log) }
    ensures same { F.told files.new ≡ F.told files.old }
    ensures counts { CountsFaults (F.counts files.old) (F.counts files.new) result }
    ensures asks { AsksFirst (name.now ∷ []) (F.counts files.old) (F.counts files.new) }
    ensures asks_all { OnOk result (AsksAll (name.now ∷ []) (F.counts files.old) (F.counts files.new)) }
    ensures cause { IfErr result (RaisesCount (F.counts files.old) (F.counts files.new)) }
{
    take_file(alloc, name, MOST_LOG, files)
}

/// The log whose head the bytes of a file begin with. It keeps the bytes.
pub fn begin_log(alloc: Global, name: &str, bytes: Vec<u8>) -> Result<LogBuf, StopCause>
    ensures head { IfOk result (λ log. IsHead log.head) }
    ensures spelled { IfOk result (λ log. bytes.items ≡ head_bytes log.head ++ log.left.bytes) }
    ensures answer { TellsResult (λ log. (log.head, log.left)) (some_or_refused name.now reason.BadHead (head_at bytes.items)) result }
    ensures cause { (old new : Counts) → IfErr result (RaisesCount old new) }
    ensures still { CountsNothing result }
{
    match LogBuf::begin(bytes) {
        Ok(log) => Ok(log),
        Err(_) => Err(StopCause::refuse(alloc, name, Reason::BadHead)),
    }
}
