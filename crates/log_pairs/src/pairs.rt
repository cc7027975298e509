// The modules and logs of a group, and the replays of the logs.
ghost use Rattle.std.specs.Prelude.{◌≡◌, ◌++◌, ℕ, ◌≢◌, List, None, Option, All, IfErr, IfOk, IfSome, MatchResult, OnOk, length, map, nat_lt};
ghost use Rattle.std.specs.List.{take_while};
ghost use Rattle.fri_outside.specs.Outside.{Counts, Folder, WhenTold};
ghost use Rattle.call_log.specs.Head.{IsHead, head_of};
ghost use Rattle.proc_replay.specs.AtHead.{IsAtHead};
ghost use Rattle.group_state.specs.Place.{AreGroupReplays};
ghost use Rattle.command_run.specs.Asked.{AsksAll, AsksFirst, kept_names, unless_named};
ghost use Rattle.command_run.specs.Call.{CountsFaults, CountsNothing, RaisesCount, TellsResult};
ghost use Rattle.command_run.specs.Kept.{AreOfFiles};
ghost use Rattle.log_pairs.specs.Pairs.{Loaded as LoadedOf, RefusesPairs, Pair as PairOf, OpensReplays, clash_of_logs, files_of_pair, has_name, has_process, insert_replay, is_other_group, pair_inputs, replay_of_log};
ghost use Rattle.log_pairs.specs.Meanings.{AreLoadedPairs, AreOneGroup, IsLoadedPair, LoadsFiles, pair_of};
ghost use Rattle.log_pairs.specs.inside.Loading.{LoadsPair};

use call_log::{LogBuf, LogHead};
use command_run::{ModuleFiles, Reason, StopCause, begin_log, begin_process, take_log};
use fri_outside::Files;
use guest_module::SharedModule;
use proc_replay::Replayer;
use std::alloc::{AllocError, Global};

/// The names of the files of a module and of a log of its process.
#[derive(Clone, Copy)]
pub struct Pair<'a> {
    pub module_file: &'a str,
    pub log_file: &'a str,
}

/// A pair that was read: the name of the module's file, the module, and the log.
pub struct Loaded<'a> {
    pub(crate) module_file: &'a str,
    pub(crate) module: SharedModule,
    pub(crate) log: LogBuf,
}

// By hand, so that it is proved here, and not in each crate that owns one.
impl Drop for Loaded<'_> {
    fn drop(self) {
        let Self {
            module_file: _module_file,
            module: _module,
            log: _log,
        } = self;
    }
}

impl Loaded<'_> {
    /// The number of the process that the log is of.
    pub fn process(&self) -> u32
        ensures { (is : LoadedOf) → IsLoadedPair self.now is → result ≡ is.head.process }
    {
        self.log.head().process
    }
}

// Why a log does not go with the pairs before it.
fn clash_of_logs(earlier: &[Loaded<'_>], head: &LogHead<'_>) -> Option<Reason>
    ensures answer { (ls : List LoadedOf) → AreLoadedPairs earlier.now ls → result ≡ clash_of_logs ls (head_of head.now) }
    ensures cause { IfSome result (λ why. why ≢ Reason.TooLarge) }
{
    if is_other_group(earlier, head.count) {
        return Some(Reason::OtherGroup);
    }
    if has_process(earlier, head.process) {
        return Some(Reason::SameProcess);
    }
    if has_name(earlier, head.name) {
        return Some(Reason::SameName);
    }
    None
}

// Whether the first pair is of a group of another number of processes.
fn is_other_group(earlier: &[Loaded<'_>], count: u32) -> bool
    ensures { (ls : List LoadedOf) → AreLoadedPairs earlier.now ls → result ≡ is_other_group ls count }
{
    match earlier {
        [] => false,
        [first, ..] => first.log.head().count != count,
    }
}

// Whether a pair is of this process.
fn has_process(earlier: &[Loaded<'_>], process: u32) -> bool
    ensures { (ls : List LoadedOf) → AreLoadedPairs earlier.now ls → result ≡ has_process ls process }
{
    earlier.iter().any(|l| l.log.head().process == process)
}

// Whether a pair is of a process of this name.
fn has_name(earlier: &[Loaded<'_>], name: &[u8]) -> bool
    ensures { (ls : List LoadedOf) → AreLoadedPairs earlier.now ls → result ≡ has_name ls name.now }
{
    earlier.iter().any(|l| l.log.head().name == name)
}

// Reads the files of a pair: the module's, unless it is kept, then the log's; then the log against the pairs before it.
fn load<'a, F: Files>(
    alloc: Global,
    pair: Pair<'a>,
    earlier: &[Loaded<'a>],
    modules: &mut ModuleFiles,
    files: &mut F,
) -> Result<Loaded<'a>, StopCause>
    requires { AreOfFiles (F.told files.old) modules.old }
    ensures answer { WhenTold (F.told files.old) (λ folder. LoadsPair folder earlier.now (pair_of pair.entry) result) }
    ensures fits { IfOk result (λ l. (ls : List LoadedOf) → AreLoadedPairs earlier.now ls
        → (is : LoadedOf) × (IsLoadedPair l is × (clash_of_logs ls is.head ≡ None))) }
    ensures kept { AreOfFiles (F.told files.old) modules.new }
    ensures same { F.told files.new ≡ F.told files.old }
    ensures counts { CountsFaults (F.counts files.old) (F.counts files.new) result }
    ensures asks { AsksFirst (files_of_pair (kept_names modules.old) (pair_of pair.entry)) (F.counts files.old) (F.counts files.new) }
    ensures asks_all { OnOk result (AsksAll (files_of_pair (kept_names modules.old) (pair_of pair.entry)) (F.counts files.old) (F.counts files.new)) }
    ensures named { OnOk result (kept_names modules.new ≡ kept_names modules.old ++ unless_named (kept_names modules.old) (pair_of pair.entry).module_name) }
    ensures cause { IfErr result (RaisesCount (F.counts files.old) (F.counts files.new)) }
{
    call_log::laws::exact_logs();
    let module = modules.take(alloc, pair.module_file, files)?;
    let bytes = take_log(alloc, pair.log_file, files)?;
    let log = begin_log(alloc, pair.log_file, bytes)?;
    if let Some(why) = clash_of_logs(earlier, &log.head()) {
        return Err(StopCause::refuse(alloc, pair.log_file, why));
    }
    Ok(Loaded {
        module_file: pair.module_file,
        module,
        log,
    })
}

/// Reads the files of all pairs, pair after pair. A module whose file has the name of an earlier one is not read again.
pub fn load_all<'a, F: Files>(
    alloc: Global,
    pairs: &[Pair<'a>],
    files: &mut F,
) -> Result<Vec<Loaded<'a>>, StopCause>
    ensures answer { MatchResult result (λ all. LoadsFiles (map pair_of pairs.now) (F.told files.old) all.items)
        (RefusesPairs (map pair_of pairs.now) (F.told files.old)) }
    ensures loaded { IfOk result (λ all. (ls : List LoadedOf) × AreLoadedPairs all.items ls) }
    ensures apart { IfOk result (λ all. AreOneGroup all.items) }
    ensures same { F.told files.new ≡ F.told files.old }
    ensures counts { CountsFaults (F.counts files.old) (F.counts files.new) result }
    ensures asks { AsksFirst (pair_inputs (map pair_of pairs.now)) (F.counts files.old) (F.counts files.new) }
    ensures asks_all { OnOk result (AsksAll (pair_inputs (map pair_of pairs.now)) (F.counts files.old) (F.counts files.new)) }
    ensures cause { IfErr result (RaisesCount (F.counts files.old) (F.counts files.new)) }
{
    let mut modules = ModuleFiles::new(alloc);
    let mut all = Vec::new(alloc);
    for pair in pairs {
        let loaded = load(alloc, *pair, &all, &mut modules, files)?;
        all.push(loaded)?;
    }
    Ok(all)
}

// The replay of a log from the first state of its process.
fn begin_replay<'m>(alloc: Global, loaded: &'m Loaded<'_>) -> Result<Replayer<'m, 'm>, StopCause>
    requires { (is : LoadedOf) × IsLoadedPair loaded.now is }
    ensures answer { (is : LoadedOf) → IsLoadedPair loaded.now is → TellsResult (λ replay. replay) (replay_of_log is) result }
    ensures fresh { IfOk result (λ replay. replay.state.events ≡ 0) }
    ensures at_head { IfOk result IsAtHead }
    ensures cause { (old new : Counts) → IfErr result (RaisesCount old new) }
    ensures still { CountsNothing result }
{
    let LogHead { process, count, .. } = loaded.log.head();
    let begun = begin_process(
        alloc,
        loaded.module_file,
        loaded.module.module(),
        process,
        count,
    )?;
    Ok(Replayer::begin(alloc, begun, loaded.log.view())?)
}

// How many replays at the front are of processes with lower numbers.
fn index_of(sorted: &[Replayer<'_, '_>], process: u32) -> usize
    ensures { result ≡ length (take_while (λ other. nat_lt other.head.process process) sorted.now) }
{
    sorted
        .iter()
        .take_while(|other| other.head().process < process)
        .count()
}

// Puts a replay in its place by the number of its process.
fn insert_replay<'m>(
    sorted: &mut Vec<Replayer<'m, 'm>>,
    replay: Replayer<'m, 'm>,
) -> Result<(), AllocError>
    ensures { OnOk result (sorted.new.items ≡ insert_replay replay.entry sorted.old.items) }
{
    let index = index_of(sorted, replay.head().process);
    sorted.insert(index, replay)?;
    Ok(())
}

/// The replays of the logs of a group, in order of their processes' numbers.
pub fn begin_all<'m>(
    alloc: Global,
    all: &'m [Loaded<'_>],
) -> Result<Vec<Replayer<'m, 'm>>, StopCause>
    requires loaded { (ls : List LoadedOf) × AreLoadedPairs all.now ls }
    requires apart { AreOneGroup all.now }
    ensures answer { (pairs : List PairOf) (told : Option Folder) → LoadsFiles pairs told all.now → MatchResult result
        (λ replays. OpensReplays pairs told replays.items) (RefusesPairs pairs told) }
    ensures replayers { IfOk result (λ replays. AreGroupReplays replays.items) }
    ensures heads { IfOk result (λ replays. All (λ r. IsHead r.head) replays.items) }
    ensures at_heads { IfOk result (λ replays. All IsAtHead replays.items) }
    ensures cause { (old new : Counts) → IfErr result (RaisesCount old new) }
    ensures still { CountsNothing result }
{
    let mut sorted = Vec::new(alloc);
    for loaded in all {
        let replay = begin_replay(alloc, loaded)?;
        insert_replay(&mut sorted, replay)?;
    }
    Ok(sorted)
}
