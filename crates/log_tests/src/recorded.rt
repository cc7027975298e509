// Modules, and groups over the logs of recordings, that several tests begin with.
ghost use Rattle.std.specs.Prelude.{◌≡◌, IfOk, List};
ghost use Rattle.log_pairs.specs.Pairs.{Loaded as LoadedOf};
ghost use Rattle.log_pairs.specs.Meanings.{AreLoadedPairs, AreOneGroup};

use fri_outside::MemFiles;
use group_record::run_record;
use group_state::Group;
use guest_module::{SharedModule, ValidModule};
use log_pairs::{Loaded, Pair, begin_all, load_all};
use schedule_text::read_schedule;
use std::alloc::Global;
use std::process::Abort;
use std::test::Fail;
use wasm_decode::decode;
use wasm_validate::validate;

pub(crate) fn valid(alloc: Global, bytes: &[u8]) -> Result<ValidModule, Fail> {
    let decoded = decode(alloc, bytes)?;
    Ok(validate(alloc, decoded)?)
}

pub(crate) fn shared(alloc: Global, bytes: &[u8]) -> Result<SharedModule, Fail> {
    Ok(SharedModule::new(alloc, valid(alloc, bytes)?)?)
}

// Records the schedule of these bytes over these modules, one for each process.
pub(crate) fn record(
    rt: &(impl Abort + AllocGlobal),
    schedule: &[u8],
    modules: &[SharedModule],
    files: &mut MemFiles,
) -> Result<(), Fail> {
    let alloc = rt.alloc();
    let schedule = read_schedule(alloc, schedule)?;
    assert_eq!(rt; modules.len(), schedule.processes().len());
    run_record(alloc, &schedule, modules, files, false)?;
    Ok(())
}

pub(crate) fn load(
    alloc: Global,
    pairs: &[Pair<'static>],
    files: &mut MemFiles,
) -> Result<Vec<Loaded<'static>>, Fail>
    ensures loaded { IfOk result (λ all. (ls : List LoadedOf) × AreLoadedPairs all.items ls) }
    ensures apart { IfOk result (λ all. AreOneGroup all.items) }
{
    match load_all(alloc, pairs, files) {
        Ok(all) => Ok(all),
        Err(_) => Err("no logs".into()),
    }
}

pub(crate) fn begin<'m>(alloc: Global, all: &'m [Loaded<'_>]) -> Result<Group<'m, 'm>, Fail>
    requires loaded { (ls : List LoadedOf) × AreLoadedPairs all.now ls }
    requires apart { AreOneGroup all.now }
    ensures { IfOk result (λ group. group.at ≡ 0) }
{
    let Ok(replayers) = begin_all(alloc, all) else {
        return Err("no replays".into());
    };
    Ok(Group::begin(alloc, replayers)?)
}
