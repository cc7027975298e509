// The first parts of a group's logs that are kept.
ghost use Rattle.std.specs.Prelude.{◌≡◌, ◌++◌, ◌≤◌, All, IfOk, OnOk, length, map, string_bytes};
ghost use Rattle.std.specs.List.{flat_map};
ghost use Rattle.lamport_tag.specs.Limits.{most_processes};
ghost use Rattle.call_log.specs.Head.{IsHead};
ghost use Rattle.cut_command.specs.Cut.{cut_line};
ghost use Rattle.cut_command.specs.inside.Meanings.{front_file, front_line, fronts_of, log_of_replay};

use call_log::LogView;
use causal_cut::Cut;
use fri_text::Text;
use proc_replay::Replayer;
use process_files::process_file;
use std::alloc::{AllocError, Global};

/// A log, how many of its first events are kept, and how many are accepted.
#[derive(Drop)]
pub(crate) struct Front<'m> {
    pub(crate) log: LogView<'m>,
    pub(crate) kept: u64,
    pub(crate) accepted: u64,
}

/// The logs of these replays.
pub(crate) fn logs_of<'m>(
    alloc: Global,
    replayers: &[Replayer<'_, 'm>],
) -> Result<Vec<LogView<'m>>, AllocError>
    ensures { IfOk result (λ logs. logs.items ≡ map log_of_replay replayers.now) }
{
    let mut logs = Vec::new(alloc);
    for replayer in replayers {
        logs.push(replayer.log())?;
    }
    Ok(logs)
}

/// How much of each log is kept.
pub(crate) fn fronts_of<'m>(
    alloc: Global,
    logs: &[LogView<'m>],
    cut: &Cut,
) -> Result<Vec<Front<'m>>, AllocError>
    requires few { length logs.now ≤ most_processes }
    requires kept { length cut.now.kept ≡ length logs.now }
    requires accepted { length cut.now.accepted ≡ length logs.now }
    ensures { IfOk result (λ fronts. fronts.items ≡ fronts_of logs.now cut.now.kept cut.now.accepted) }
{
    let mut fronts = Vec::new(alloc);
    for node in 0..logs.len() {
        let (Some(kept), Some(accepted)) = (cut.length(node as u32), cut.accepted(node as u32))
        else {
            unreachable!();
        };
        let log = logs[node].copy();
        fronts.push(Front {
            log,
            kept,
            accepted,
        })?;
    }
    Ok(fronts)
}

/// The names of the files that are made of these logs.
pub(crate) fn cut_names(alloc: Global, fronts: &[Front<'_>]) -> Result<Vec<String>, AllocError>
    requires { All (λ front. IsHead front.log.head) fronts.now }
    ensures { IfOk result (λ names. map string_bytes names.items ≡ map (λ file. file.0) (map front_file fronts.now)) }
{
    let mut names = Vec::new(alloc);
    for front in fronts {
        names.push(process_file(alloc, front.log.head().name, ".cut")?)?;
    }
    Ok(names)
}

// Adds the line of a log.
fn push_line(text: &mut Text, name: &[u8], kept: u64, accepted: u64) -> Result<(), AllocError>
    ensures { OnOk result (text.new ≡ text.old ++ cut_line name.now kept accepted) }
{
    text.push_bytes(name)?;
    text.push_str(": ")?;
    text.push_u64(kept)?;
    text.push_str(" of ")?;
    text.push_u64(accepted)?;
    text.push_str(" events\n")
}

/// A line for each log.
pub(crate) fn print(alloc: Global, fronts: &[Front<'_>]) -> Result<Text, AllocError>
    ensures { IfOk result (λ text. text ≡ flat_map front_line fronts.now) }
{
    let mut text = Text::new(alloc);
    for front in fronts {
        push_line(&mut text, front.log.head().name, front.kept, front.accepted)?;
    }
    Ok(text)
}
