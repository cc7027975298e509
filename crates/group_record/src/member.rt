// A process of a group that is recorded, and the file of its log.
ghost use Rattle.std.specs.Prelude.{◌≡◌, ◌+◌, ◌<◌, ◌≤◌, nat_le, length, option_map, IfOk, OnOk, IsTrue};
ghost use Rattle.lamport_tag.specs.Limits.{most_processes};
ghost use Rattle.call_log.specs.Head.{head_bytes};
ghost use Rattle.call_log.specs.Limits.{most_log};
ghost use Rattle.call_log.specs.declared.version.Version.TheVariants.{Two};
ghost use Rattle.fri_text.specs.Name.{is_name as is_name_word};
ghost use Rattle.lib_calls.specs.Entry.{entry_of};
ghost use Rattle.schedule_text.specs.Schedule.{IsProcess};
ghost use Rattle.guest_process.specs.Next.{next};
ghost use Rattle.guest_process.specs.Start.{start as start_of};
ghost use Rattle.wasm_types.specs.Modules.{module_of};
ghost use Rattle.group_record.specs.Answer.{after_writes};
ghost use Rattle.group_record.specs.inside.Members.{CanKeepEntry, LogHasRoom, StartsMember, WritesToLog, member_after, spelled_entry};
ghost use Rattle.group_record.specs.Files.{change};

use crate::error::RecordError;
use call_log::{LogHead, MOST_LOG, Version, put_head};
use fri_outside::Files;
use guest_module::ValidModule;
use guest_process::Process;
use lib_calls::EntryView;
use process_files::process_file;
use schedule_text::ProcessLine;
use std::alloc::{AllocError, Global};
use wasm_step::StartError;

/// A process with the name of its log's file, the head of the log, how many bytes the log has with it, and the
/// clock of its last entry, or 0. The process is away while it makes an event.
#[derive(Drop)]
pub(crate) struct Member<'m> {
    pub(crate) log: String,
    pub(crate) head: Vec<u8>,
    pub(crate) size: usize,
    pub(crate) last: u64,
    pub(crate) process: Option<Process<'m>>,
}

impl<'m> Member<'m> {
    /// Process `p` of a group of `count`, before its first event.
    pub(crate) fn start(
        alloc: Global,
        line: &ProcessLine,
        module: &'m ValidModule,
        p: u32,
        count: u32,
    ) -> Result<Member<'m>, RecordError>
        requires process { p < count }
        requires count { count ≤ most_processes }
        requires line { IsProcess line.now }
        ensures { StartsMember (start_of (module_of «module».now) p count) line.now.name p count result }
    {
        guest_process::laws::counting();
        let log = process_file(alloc, line.name.as_slice(), ".log")?;
        let head = log_head(alloc, line.name.as_slice(), p, count)?;
        match Process::start(alloc, module, p, count) {
            Ok(process) => Ok(Member {
                log,
                size: head.len(),
                head,
                last: 0,
                process: Some(process),
            }),
            Err(StartError::BadSegment) => Err(RecordError::BadSegment(p)),
            Err(StartError::NoMemory) => Err(RecordError::NoMemory),
        }
    }

    /// Writes the bytes of an event's entry to the log, where the log has room, and makes the event. `number` is that
    /// of the item to which the event belongs.
    pub(crate) fn log_event<F: Files>(
        &mut self,
        number: u64,
        entry: &EntryView<'_>,
        bytes: &[u8],
        files: &mut F,
    ) -> Result<(), RecordError>
        requires event { CanKeepEntry self.old (entry_of entry.now) }
        requires spelled { bytes.now ≡ spelled_entry self.old (entry_of entry.now) }
        ensures writes { WritesToLog self.old number (spelled_entry self.old (entry_of entry.now)) result (change (F.told files.old) (F.told files.new)) }
        ensures ok { OnOk result (self.new ≡ member_after self.old (entry_of entry.now)) }
        ensures counted { F.counts files.new ≡ after_writes (F.counts files.old) result }
    {
        self.write(number, bytes, files)?;
        self.make_event(entry, bytes.len())?;
        Ok(())
    }

    /// Whether the log has room for so many bytes.
    pub(crate) fn has_room(&self, size: usize) -> bool
        requires { self.now.size ≤ most_log }
        ensures { result ≡ nat_le (self.now.size + size) most_log }
    {
        size <= MOST_LOG - self.size
    }

    // Writes bytes at the end of the log, where it has room.
    #[tactic(auto, using(std::proofs::lemmas::Bool::Decides::nat_tests))]
    fn write<F: Files>(&self, number: u64, bytes: &[u8], files: &mut F) -> Result<(), RecordError>
        requires { self.now.size ≤ most_log }
        ensures writes { WritesToLog self.now number bytes.now result (change (F.told files.old) (F.told files.new)) }
        ensures counted { F.counts files.new ≡ after_writes (F.counts files.old) result }
    {
        if !self.has_room(bytes.len()) {
            return Err(RecordError::LogFull(number));
        }
        files.append(&self.log, bytes)?;
        Ok(())
    }

    /// Makes the event of an entry that was spelled in so many bytes.
    pub(crate) fn make_event(
        &mut self,
        entry: &EntryView<'_>,
        size: usize,
    ) -> Result<(), AllocError>
        requires event { CanKeepEntry self.old (entry_of entry.now) }
        requires size { size ≡ length (spelled_entry self.old (entry_of entry.now)) }
        requires room { LogHasRoom self.old (spelled_entry self.old (entry_of entry.now)) }
        ensures { OnOk result (self.new ≡ member_after self.old (entry_of entry.now)) }
    {
        self.size += size;
        self.last = entry.clock;
        self.advance(entry)
    }

    // Makes the event of a legal entry.
    fn advance(&mut self, entry: &EntryView<'_>) -> Result<(), AllocError>
        requires { CanKeepEntry self.old (entry_of entry.now) }
        ensures { OnOk result (self.new ≡ record self.old { process = option_map (λ S. next S (entry_of entry.now)) self.old.process }) }
    {
        let Some(process) = self.process.take() else {
            unreachable!();
        };
        self.process = Some(process.advance(entry)?);
        Ok(())
    }
}

// The head of a process's log.
fn log_head(alloc: Global, name: &[u8], p: u32, count: u32) -> Result<Vec<u8>, AllocError>
    requires process { p < count }
    requires count { count ≤ most_processes }
    requires named { IsTrue (is_name_word name.now) }
    ensures { IfOk result (λ bytes. bytes.items ≡ head_bytes (record { version = Two; count = count; process = p; name = name.now })) }
{
    let mut bytes = Vec::new(alloc);
    let head = LogHead {
        version: Version::Two,
        count,
        process: p,
        name,
    };
    put_head(&mut bytes, &head)?;
    Ok(bytes)
}
