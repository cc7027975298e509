// The files of the logs, as they are begun.
ghost use Rattle.std.specs.Prelude.{◌≡◌};
ghost use Rattle.group_record.specs.Answer.{after_writes};
ghost use Rattle.group_record.specs.inside.Begun.{BeginsLogs, CreatesLogs, WritesHeads};

use crate::error::RecordError;
use crate::member::Member;
use fri_outside::Files;

/// Makes the files of all logs, in order of the processes, and then writes the head of each.
pub(crate) fn begin_logs<F: Files>(members: &[Member<'_>], files: &mut F) -> Result<(), RecordError>
    ensures logs { BeginsLogs members.now result (F.told files.old) (F.told files.new) }
    ensures counted { F.counts files.new ≡ after_writes (F.counts files.old) result }
{
    create_logs(members, files)?;
    write_heads(members, files)
}

// Makes the files, which have no bytes.
fn create_logs<F: Files>(members: &[Member<'_>], files: &mut F) -> Result<(), RecordError>
    ensures files { CreatesLogs members.now result (F.told files.old) (F.told files.new) }
    ensures counted { F.counts files.new ≡ after_writes (F.counts files.old) result }
{
    fri_outside::laws::keeps_files();
    for member in members {
        files.create(&member.log)?;
    }
    Ok(())
}

// Writes the heads to the files.
fn write_heads<F: Files>(members: &[Member<'_>], files: &mut F) -> Result<(), RecordError>
    ensures heads { WritesHeads members.now result (F.told files.old) (F.told files.new) }
    ensures counted { F.counts files.new ≡ after_writes (F.counts files.old) result }
{
    fri_outside::laws::keeps_files();
    for member in members {
        files.append(&member.log, &member.head)?;
    }
    Ok(())
}
