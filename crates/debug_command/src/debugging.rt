// `debug MODULE LOG ..`: a session over the logs of a group, each by its module.
ghost use Rattle.std.specs.Prelude.{◌≡◌, map};
ghost use Rattle.command_run.specs.Run.{outside};
ghost use Rattle.log_pairs.specs.Meanings.{pair_of};
ghost use Rattle.debug_command.specs.Run.{DebugRun};

use crate::session::debug_lines;
use command_run::{Status, finish};
use fri_outside::{Files, Terminal};
use log_pairs::{Pair, begin_all, load_all};
use std::alloc::Global;
use std::marker::Brand;
use std::sync::ledger::Blank;

/// Begins the replays of the logs, and answers the lines of the input.
pub fn debug<F: Files, T: Terminal>(
    alloc: Global,
    pairs: &[Pair<'_>],
    files: &mut F,
    io: &mut T,
) -> Status
    ensures { DebugRun (map pair_of pairs.now)
        (outside (F.told files.old) (F.counts files.old) (T.hearing io.old) (T.taken io.old) (T.faults io.old))
        (outside (F.told files.new) (F.counts files.new) (T.hearing io.new) (T.taken io.new) (T.faults io.new))
        result }
{
    let all = match load_all(alloc, pairs, files) {
        Ok(all) => all,
        Err(refusal) => return finish(alloc, Err(refusal), io),
    };
    match begin_all(alloc, &all) {
        Ok(replayers) => debug_lines::<T, Brand>(alloc, Blank::new(1), replayers, io),
        Err(refusal) => finish(alloc, Err(refusal), io),
    }
}
