// The processes of a schedule.
ghost use Rattle.std.specs.Prelude.{◌≡◌, IfOk};
ghost use Rattle.schedule_text.specs.Reading.{process_line_of};

use crate::fields::Fields;
use crate::word::is_module_name;
use fri_bytes::Bytes;
use fri_text::is_name;
use std::alloc::{AllocError, Global};

/// A process: its name, of 1 to 32 bytes of a to z, 0 to 9 and _, and the name of its module's file, of
/// 1 to 255 bytes from ! to ~ that don't end in `.log`, `.mem` or `.out`.
#[derive(Drop)]
pub struct ProcessLine {
    pub name: Bytes,
    pub module: Bytes,
}

/// The process of a line with these fields after the word `process`.
#[tactic(auto, unfolding(crate::specs::Reading::process_line_of))]
pub(crate) fn read_process(
    alloc: Global,
    fields: &mut Fields,
) -> Result<Option<ProcessLine>, AllocError>
    ensures { IfOk result (λ line. line ≡ process_line_of fields.old) }
{
    let Some(name) = fields.next_field() else {
        return Ok(None);
    };
    let Some(module) = fields.last_field() else {
        return Ok(None);
    };
    if !is_name(name) || !is_module_name(module) {
        return Ok(None);
    }
    let name = Bytes::from_slice(alloc, name)?;
    let module = Bytes::from_slice(alloc, module)?;
    Ok(Some(ProcessLine { name, module }))
}
