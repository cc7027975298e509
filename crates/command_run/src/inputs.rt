// Reads files, and the modules in them.
ghost use Rattle.std.specs.Prelude.{◌≡◌, ◌∷◌, ℕ, ◌<◌, ◌≤◌, [], vec_len, IfOk, IfErr, OnOk};
ghost use Rattle.lamport_tag.specs.Limits.{most_processes};
ghost use Rattle.fri_outside.specs.Outside.{WhenTold, Counts};
ghost use Rattle.wasm_types.specs.Modules.{module_of as shown};
ghost use Rattle.wasm_decode.specs.Sections.{module_of_bytes};
ghost use Rattle.command_run.specs.declared.refusal.Reason.TheVariants as reason;
ghost use Rattle.command_run.specs.Outcome.{and_then, file_of, some_or_refused};
ghost use Rattle.guest_process.specs.EventCount.{IsFresh};
ghost use Rattle.command_run.specs.Inputs.{first_state_of, module_in, valid_module};
ghost use Rattle.command_run.specs.Asked.{AsksAll, AsksFirst};
ghost use Rattle.command_run.specs.Call.{CountsFaults, CountsNothing, RaisesCount, TellsResult};

use crate::refusal::{Reason, StopCause};
use fri_outside::{FileError, Files};
use guest_module::ValidModule;
use guest_process::Process;
use std::alloc::Global;
use wasm_decode::{DecodeError, decode};
use wasm_step::StartError;
use wasm_types::Module;
use wasm_validate::{Invalid, validate};

const MOST_MODULE: usize = 4_194_304;

/// All bytes of a file, within its limit.
#[tactic(auto, using(crate::proofs::FoundFiles::held_file, crate::proofs::FoundFiles::missing_file, crate::proofs::FoundFiles::large_file))]
pub fn take_file<F: Files>(
    alloc: Global,
    name: &str,
    limit: usize,
    files: &mut F,
) -> Result<Vec<u8>, StopCause>
    ensures within { IfOk result (λ bytes. vec_len bytes ≤ limit) }
    ensures answer { WhenTold (F.told files.old) (λ folder. TellsResult (λ bytes. bytes.items) (file_of folder name.now limit) result) }
    ensures same { F.told files.new ≡ F.told files.old }
    ensures counts { CountsFaults (F.counts files.old) (F.counts files.new) result }
    ensures asks { AsksFirst (name.now ∷ []) (F.counts files.old) (F.counts files.new) }
    ensures asks_all { OnOk result (AsksAll (name.now ∷ []) (F.counts files.old) (F.counts files.new)) }
    ensures cause { IfErr result (RaisesCount (F.counts files.old) (F.counts files.new)) }
{
    match files.read(alloc, name, limit) {
        Ok(bytes) => Ok(bytes),
        Err(FileError::Absent) => Err(StopCause::absent(alloc, name)),
        Err(FileError::TooLarge) => Err(StopCause::refuse(alloc, name, Reason::TooLarge)),
        Err(FileError::Failed) => Err(StopCause::ReadFault),
        Err(FileError::NoMemory) => Err(StopCause::NoMemory),
    }
}

// The module that the bytes of a file spell.
fn spelled(alloc: Global, name: &str, bytes: &[u8]) -> Result<Module, StopCause>
    ensures answer { TellsResult shown (some_or_refused name.now reason.Malformed (module_of_bytes bytes.now)) result }
    ensures cause { (old new : Counts) → IfErr result (RaisesCount old new) }
    ensures still { CountsNothing result }
{
    match decode(alloc, bytes) {
        Ok(module) => Ok(module),
        Err(DecodeError::Malformed) => Err(StopCause::refuse(alloc, name, Reason::Malformed)),
        Err(DecodeError::NoMemory) => Err(StopCause::NoMemory),
    }
}

// The module, where it is valid.
#[tactic(auto, using(crate::proofs::ModuleFaults::no_fault, crate::proofs::ModuleFaults::has_float, crate::proofs::ModuleFaults::bad_import, crate::proofs::ModuleFaults::untyped, crate::proofs::ModuleFaults::over_limit, crate::proofs::ModuleFaults::no_start))]
fn valid(alloc: Global, name: &str, module: Module) -> Result<ValidModule, StopCause>
    ensures answer { TellsResult shown (valid_module name.now (shown «module»)) result }
    ensures cause { (old new : Counts) → IfErr result (RaisesCount old new) }
    ensures still { CountsNothing result }
{
    wasm_validate::laws::exact_fault();
    match validate(alloc, module) {
        Ok(valid) => Ok(valid),
        Err(Invalid::HasFloat) => Err(StopCause::refuse(alloc, name, Reason::HasFloat)),
        Err(Invalid::BadImport) => Err(StopCause::refuse(alloc, name, Reason::BadImport)),
        Err(Invalid::Untyped) => Err(StopCause::refuse(alloc, name, Reason::Untyped)),
        Err(Invalid::OverLimit) => Err(StopCause::refuse(alloc, name, Reason::OverLimit)),
        Err(Invalid::NoStart) => Err(StopCause::refuse(alloc, name, Reason::NoStart)),
        Err(Invalid::NoMemory) => Err(StopCause::NoMemory),
    }
}

// The valid module that the bytes of a file spell.
fn read_module(alloc: Global, name: &str, bytes: &[u8]) -> Result<ValidModule, StopCause>
    ensures answer { TellsResult shown (and_then (some_or_refused name.now reason.Malformed (module_of_bytes bytes.now)) (valid_module name.now)) result }
    ensures cause { (old new : Counts) → IfErr result (RaisesCount old new) }
    ensures still { CountsNothing result }
{
    let spelled = spelled(alloc, name, bytes)?;
    valid(alloc, name, spelled)
}

/// The valid module that a file holds.
pub fn take_module<F: Files>(
    alloc: Global,
    name: &str,
    files: &mut F,
) -> Result<ValidModule, StopCause>
    ensures answer { WhenTold (F.told files.old) (λ folder. TellsResult shown (module_in folder name.now) result) }
    ensures same { F.told files.new ≡ F.told files.old }
    ensures counts { CountsFaults (F.counts files.old) (F.counts files.new) result }
    ensures asks { AsksFirst (name.now ∷ []) (F.counts files.old) (F.counts files.new) }
    ensures asks_all { OnOk result (AsksAll (name.now ∷ []) (F.counts files.old) (F.counts files.new)) }
    ensures cause { IfErr result (RaisesCount (F.counts files.old) (F.counts files.new)) }
{
    let bytes = take_file(alloc, name, MOST_MODULE, files)?;
    read_module(alloc, name, &bytes)
}

/// Process `who` of a group of `count`, of the module that the file of this name holds.
pub fn begin_process<'m>(
    alloc: Global,
    name: &str,
    module: &'m ValidModule,
    who: u32,
    count: u32,
) -> Result<Process<'m>, StopCause>
    requires who { who < count }
    requires count { count ≤ most_processes }
    ensures answer { TellsResult (λ begun. begun) (first_state_of name.now (shown «module».now) who count) result }
    ensures fresh { IfOk result (IsFresh who count) }
    ensures cause { (old new : Counts) → IfErr result (RaisesCount old new) }
    ensures still { CountsNothing result }
{
    guest_process::laws::counting();
    match Process::start(alloc, module, who, count) {
        Ok(process) => Ok(process),
        Err(StartError::BadSegment) => Err(StopCause::refuse(alloc, name, Reason::BadSegment)),
        Err(StartError::NoMemory) => Err(StopCause::NoMemory),
    }
}
