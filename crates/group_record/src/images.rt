// The images of a group's processes.
ghost use Rattle.std.specs.Prelude.{◌≡◌, IsTrue, All, is_some, length};
ghost use Rattle.schedule_text.specs.Schedule.{IsProcess};
ghost use Rattle.group_record.specs.Answer.{after_writes};
ghost use Rattle.group_record.specs.inside.Recorded.{MakesImages, prints_kept_for};
ghost use Rattle.group_record.specs.Files.{change};

use crate::error::RecordError;
use crate::recorder::Recorder;
use fri_outside::Files;
use lib_calls::memory_bytes;
use process_files::write_image;
use schedule_text::ProcessLine;
use std::alloc::Global;

/// Makes the images of all processes, in their order, where they are asked for. The copy of a memory is let
/// go before the next one is made.
pub(crate) fn write_images<F: Files>(
    alloc: Global,
    asked: bool,
    processes: &[ProcessLine],
    recorder: &Recorder<'_>,
    files: &mut F,
) -> Result<(), RecordError>
    requires members { length recorder.now.members.items ≡ length processes.now }
    requires present { All (λ m. IsTrue (is_some m.process)) recorder.now.members.items }
    requires kept { length recorder.now.prints ≡ prints_kept_for asked (length processes.now) }
    requires named { All IsProcess processes.now }
    ensures images { MakesImages asked processes.now recorder.now result (change (F.told files.old) (F.told files.new)) }
    ensures counted { F.counts files.new ≡ after_writes (F.counts files.old) result }
{
    if !asked {
        return Ok(());
    }
    for p in 0..processes.len() {
        let Some(process) = &recorder.members[p].process else {
            unreachable!();
        };
        let name = processes[p].name.as_slice();
        let memory = memory_bytes(alloc, process.memory())?;
        write_image(alloc, name, memory.as_slice(), recorder.prints.of(p), files)?;
    }
    Ok(())
}
