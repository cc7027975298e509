// Reads a schedule, and the modules of its processes.
ghost use Rattle.std.specs.Prelude.{◌≡◌, ◌<◌, ◌∷◌, ◌++◌, ℕ, [], All, length, map, IfOk, IfErr, OnOk};
ghost use Rattle.fri_outside.specs.Outside.{Counts, WhenTold};
ghost use Rattle.wasm_types.specs.Modules.{module_of as shown};
ghost use Rattle.schedule_text.specs.Reading.{schedule_of};
ghost use Rattle.schedule_text.specs.Schedule.{IsProcess, IsSchedule};
ghost use Rattle.command_run.specs.Asked.{AsksAll, AsksFirst, kept_names, unless_named};
ghost use Rattle.command_run.specs.Call.{CountsFaults, CountsNothing, RaisesCount, RefusesFile, TellsResult};
ghost use Rattle.command_run.specs.Inputs.{module_in};
ghost use Rattle.command_run.specs.Kept.{AreOfFiles};
ghost use Rattle.record_command.specs.Expected.{module_files, module_name, modules_of, record_inputs, schedule_in, schedule_or_refusal};
ghost use Rattle.record_command.specs.Gathering.{GathersInputs, IsRefusalOf};

use command_run::{ModuleFiles, Reason, StopCause, take_file};
use fri_outside::Files;
use group_record::RecordError;
use guest_module::SharedModule;
use schedule_text::{MOST_SCHEDULE, ProcessLine, Schedule, ScheduleError, read_schedule};
use std::alloc::Global;

// The module of a process.
fn take_module_of<F: Files>(
    alloc: Global,
    line: &ProcessLine,
    modules: &mut ModuleFiles,
    files: &mut F,
) -> Result<SharedModule, StopCause>
    requires line { IsProcess line.now }
    requires kept { AreOfFiles (F.told files.old) modules.old }
    ensures answer { WhenTold (F.told files.old) (λ folder. TellsResult shown (module_in folder line.now.«module») result) }
    ensures kept { AreOfFiles (F.told files.old) modules.new }
    ensures same { F.told files.new ≡ F.told files.old }
    ensures counts { CountsFaults (F.counts files.old) (F.counts files.new) result }
    ensures asks { AsksFirst (unless_named (kept_names modules.old) line.now.«module») (F.counts files.old) (F.counts files.new) }
    ensures asks_all { OnOk result (AsksAll (unless_named (kept_names modules.old) line.now.«module») (F.counts files.old) (F.counts files.new)) }
    ensures named { OnOk result (kept_names modules.new ≡ kept_names modules.old ++ unless_named (kept_names modules.old) line.now.«module») }
    ensures cause { IfErr result (RaisesCount (F.counts files.old) (F.counts files.new)) }
{
    let file = String::from_utf8_lossy(alloc, line.module.as_slice())?;
    modules.take(alloc, &file, files)
}

/// The valid modules of these processes, in their order. A file that several name is read once, and its module kept once.
pub fn take_modules<F: Files>(
    alloc: Global,
    lines: &[ProcessLine],
    files: &mut F,
) -> Result<Vec<SharedModule>, StopCause>
    requires { All IsProcess lines.now }
    ensures answer { WhenTold (F.told files.old) (λ folder. TellsResult (λ modules. map shown modules.items) (modules_of folder lines.now) result) }
    ensures count { IfOk result (λ modules. length modules.items ≡ length lines.now) }
    ensures same { F.told files.new ≡ F.told files.old }
    ensures counts { CountsFaults (F.counts files.old) (F.counts files.new) result }
    ensures asks { AsksFirst (module_files lines.now) (F.counts files.old) (F.counts files.new) }
    ensures asks_all { OnOk result (AsksAll (module_files lines.now) (F.counts files.old) (F.counts files.new)) }
    ensures cause { IfErr result (RaisesCount (F.counts files.old) (F.counts files.new)) }
{
    let mut read = ModuleFiles::new(alloc);
    let mut modules = Vec::new(alloc);
    for line in lines {
        modules.push(take_module_of(alloc, line, &mut read, files)?)?;
    }
    Ok(modules)
}

// The schedule that the bytes of a file spell.
fn spelled(alloc: Global, name: &str, bytes: &[u8]) -> Result<Schedule, StopCause>
    ensures in_range { IfOk result IsSchedule }
    ensures answer { TellsResult (λ schedule. schedule) (schedule_or_refusal name.now (schedule_of bytes.now)) result }
    ensures cause { (old new : Counts) → IfErr result (RaisesCount old new) }
    ensures still { CountsNothing result }
{
    match read_schedule(alloc, bytes) {
        Ok(schedule) => Ok(schedule),
        Err(ScheduleError::BadLine(line)) => {
            Err(StopCause::refuse(alloc, name, Reason::BadLine(line)))
        }
        Err(ScheduleError::TooMany) => Err(StopCause::refuse(alloc, name, Reason::TooMany)),
        Err(ScheduleError::NoMemory) => Err(StopCause::NoMemory),
    }
}

/// The schedule of a schedule file.
pub fn take_schedule<F: Files>(
    alloc: Global,
    name: &str,
    files: &mut F,
) -> Result<Schedule, StopCause>
    ensures in_range { IfOk result IsSchedule }
    ensures answer { WhenTold (F.told files.old) (λ folder. TellsResult (λ schedule. schedule) (schedule_in folder name.now) result) }
    ensures same { F.told files.new ≡ F.told files.old }
    ensures counts { CountsFaults (F.counts files.old) (F.counts files.new) result }
    ensures asks { AsksFirst (name.now ∷ []) (F.counts files.old) (F.counts files.new) }
    ensures asks_all { OnOk result (AsksAll (name.now ∷ []) (F.counts files.old) (F.counts files.new)) }
    ensures cause { IfErr result (RaisesCount (F.counts files.old) (F.counts files.new)) }
{
    let bytes = take_file(alloc, name, MOST_SCHEDULE, files)?;
    spelled(alloc, name, &bytes)
}

// Refuses the module of process p, with which it does not begin.
fn refuse_module(alloc: Global, schedule: &Schedule, p: u32) -> StopCause
    requires { p < length schedule.now.processes }
    ensures { RefusesFile (module_name schedule.now p) Reason.BadSegment result }
{
    let module = &schedule.processes()[p as usize].module;
    match String::from_utf8_lossy(alloc, module.as_slice()) {
        Ok(file) => StopCause::Refused(file, Reason::BadSegment),
        Err(_) => StopCause::NoMemory,
    }
}

/// The outcome of a recording that was not done.
pub fn refusal_of(
    alloc: Global,
    schedule_file: &str,
    schedule: &Schedule,
    error: RecordError,
) -> StopCause
    requires { (p : ℕ) → error ≡ RecordError.BadSegment p → p < length schedule.now.processes }
    ensures { IsRefusalOf schedule_file.now schedule.now error result }
{
    match error {
        RecordError::BadSegment(p) => refuse_module(alloc, schedule, p),
        RecordError::LogFull(item) => StopCause::refuse(
            alloc,
            schedule_file,
            Reason::LogFull(item),
        ),
        RecordError::WriteFault => StopCause::WriteFault,
        RecordError::NoMemory => StopCause::NoMemory,
    }
}

/// A schedule, and the module of each of its processes.
#[derive(Drop)]
pub struct Inputs {
    pub schedule: Schedule,
    pub modules: Vec<SharedModule>,
}

/// Reads what a recording needs. No file has changed.
pub fn gather<F: Files>(
    alloc: Global,
    schedule_file: &str,
    files: &mut F,
) -> Result<Inputs, StopCause>
    ensures answer { WhenTold (F.told files.old) (λ folder. GathersInputs folder schedule_file.now result) }
    ensures count { IfOk result (λ inputs. length inputs.modules.items ≡ length inputs.schedule.processes) }
    ensures same { F.told files.new ≡ F.told files.old }
    ensures counts { CountsFaults (F.counts files.old) (F.counts files.new) result }
    ensures asks { WhenTold (F.told files.old) (λ folder. AsksFirst (record_inputs schedule_file.now folder) (F.counts files.old) (F.counts files.new)) }
    ensures asks_all { WhenTold (F.told files.old) (λ folder.
        OnOk result (AsksAll (record_inputs schedule_file.now folder) (F.counts files.old) (F.counts files.new))) }
    ensures cause { IfErr result (RaisesCount (F.counts files.old) (F.counts files.new)) }
{
    let schedule = take_schedule(alloc, schedule_file, files)?;
    let modules = take_modules(alloc, schedule.processes(), files)?;
    Ok(Inputs { schedule, modules })
}
