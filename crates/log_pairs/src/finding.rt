// The files of a process among the pairs that were read.
ghost use Rattle.std.specs.Prelude.{◌≡◌, List, map, option_map};
ghost use Rattle.log_pairs.specs.Finding.{first_log, log_file, module_file, pair_of_process};
ghost use Rattle.log_pairs.specs.Pairs.{Loaded as LoadedOf};
ghost use Rattle.log_pairs.specs.Meanings.{AreLoadedPairs, pair_of};

use crate::pairs::{Loaded, Pair};

// The pair whose log is of this process.
fn pair_of_process<'a>(pairs: &[Pair<'a>], all: &[Loaded<'a>], process: u32) -> Option<Pair<'a>>
    ensures { (ls : List LoadedOf) → AreLoadedPairs all.now ls → option_map pair_of result ≡ pair_of_process (map pair_of pairs.now) ls process }
{
    for index in 0..all.len() {
        if all[index].process() == process {
            return pairs.get(index).copied();
        }
    }
    None
}

/// The file of the module of the process, and no name where no pair is of it.
pub fn module_file<'a>(pairs: &[Pair<'a>], all: &[Loaded<'a>], process: u32) -> &'a str
    ensures { (ls : List LoadedOf) → AreLoadedPairs all.now ls → result.now ≡ module_file (map pair_of pairs.now) ls process }
{
    match pair_of_process(pairs, all, process) {
        Some(pair) => pair.module_file,
        None => "",
    }
}

/// The file of the log of the process, and no name where no pair is of it.
pub fn log_file<'a>(pairs: &[Pair<'a>], all: &[Loaded<'a>], process: u32) -> &'a str
    ensures { (ls : List LoadedOf) → AreLoadedPairs all.now ls → result.now ≡ log_file (map pair_of pairs.now) ls process }
{
    match pair_of_process(pairs, all, process) {
        Some(pair) => pair.log_file,
        None => "",
    }
}

/// The file of the first log, and no name where there is no pair.
pub fn first_log<'a>(pairs: &[Pair<'a>]) -> &'a str
    ensures { result.now ≡ first_log (map pair_of pairs.now) }
{
    match pairs {
        [] => "",
        [first, ..] => first.log_file,
    }
}
