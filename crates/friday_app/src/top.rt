// The top call.
ghost use Rattle.std.specs.Prelude.{map, string_bytes};
ghost use Rattle.command_run.specs.Run.{outside};
ghost use Rattle.friday_app.specs.Command.{command_of};
ghost use Rattle.friday_app.specs.Run.{CommandRun, DoesValidWork};

use crate::command::{Command, parse_words};
use command_run::{Status, finish, give_up, refuse_words};
use cut_command::cut;
use debug_command::debug;
use drill_command::drill_rounds;
use fri_outside::{Files, Terminal};
use migrate_command::migrate;
use play_command::play;
use record_command::record;
use replay_command::replay;
use schedule_command::schedule;
use std::alloc::{AllocError, Global};
use streams_command::streams;

// Runs what the words say.
fn run<F: Files, T: Terminal>(alloc: Global, words: &[String], files: &mut F, io: &mut T) -> Status
    ensures { CommandRun (command_of (map string_bytes words.now))
        (outside (F.told files.old) (F.counts files.old) (T.hearing io.old) (T.taken io.old) (T.faults io.old))
        (outside (F.told files.new) (F.counts files.new) (T.hearing io.new) (T.taken io.new) (T.faults io.new))
        result }
{
    fri_outside::laws::keeps_files();
    record_command::laws::recordings_agree();
    record_command::laws::recordings_rest();
    headline::laws::left_is_shown();
    play_command::laws::played_is_recorded();
    match parse_words(alloc, words) {
        Ok(None) => refuse_words(io),
        Ok(Some(Command::Record(images, schedule_file))) => {
            let ended = record(alloc, images, schedule_file, files);
            finish(alloc, ended, io)
        }
        Ok(Some(Command::Replay(images, pairs))) => {
            let ended = replay(alloc, images, &pairs, files);
            finish(alloc, ended, io)
        }
        Ok(Some(Command::Debug(pairs))) => debug(alloc, &pairs, files, io),
        Ok(Some(Command::Drill(rounds))) => {
            let ended = drill_rounds(alloc, rounds);
            finish(alloc, ended, io)
        }
        Ok(Some(Command::Migrate(log_file, new_file))) => {
            let ended = migrate(alloc, log_file, new_file, files);
            finish(alloc, ended, io)
        }
        Ok(Some(Command::Schedule(pairs))) => {
            let ended = schedule(alloc, &pairs, files);
            finish(alloc, ended, io)
        }
        Ok(Some(Command::Cut(process, event, pairs))) => {
            let ended = cut(alloc, process, event, &pairs, files);
            finish(alloc, ended, io)
        }
        Ok(Some(Command::Streams(pairs))) => {
            let ended = streams(alloc, &pairs, files);
            finish(alloc, ended, io)
        }
        Ok(Some(Command::Play(schedule_file))) => play(alloc, schedule_file, files, io),
        Err(AllocError) => give_up(),
    }
}

/// Does what the words of the command line say, without the program's own name.
///
/// What is expected of a command (`expected`) is said once for all commands, as far as the files and the
/// input tell it: the status, the text that `io` gets and the files that are made. A fault of an
/// object that was handed in ends the call in its place, and so does want of memory, which is free.
pub fn friday<F: Files, T: Terminal>(
    alloc: Global,
    words: &[String],
    files: &mut F,
    io: &mut T,
) -> Status
    // The promises, each a field
    ensures run { CommandRun (command_of (map string_bytes words.now))
        (outside (F.told files.old) (F.counts files.old) (T.hearing io.old) (T.taken io.old) (T.faults io.old))
        (outside (F.told files.new) (F.counts files.new) (T.hearing io.new) (T.taken io.new) (T.faults io.new))
        result }

    // Valid words, files and input, and no fault: the work is done, unless memory runs out.
    ensures complete { DoesValidWork (command_of (map string_bytes words.now))
        (outside (F.told files.old) (F.counts files.old) (T.hearing io.old) (T.taken io.old) (T.faults io.old))
        (outside (F.told files.new) (F.counts files.new) (T.hearing io.new) (T.taken io.new) (T.faults io.new))
        result }
{
    record_command::laws::recordings_work();
    replay_command::laws::replays_work();
    debug_command::laws::sessions_work();
    migrate_command::laws::migrations_work();
    schedule_command::laws::schedules_work();
    cut_command::laws::cuts_work();
    streams_command::laws::streams_work();
    play_command::laws::plays_work();
    run(alloc, words, files, io)
}
