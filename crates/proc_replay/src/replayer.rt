// A process that is replayed from its log.
ghost use Rattle.std.specs.Prelude.{◌≡◌, ◌*◌, ◌<◌, ◌^◌, IfOk, length};
ghost use Rattle.call_log.specs.Head.{head_of};
ghost use Rattle.call_log.specs.Limits.{least_entry};
ghost use Rattle.proc_replay.specs.inside.Ahead.{IsLookahead, FitsEventCount, replaying};
ghost use Rattle.proc_replay.specs.Replaying.{after_replay_turn, turn};
ghost use Rattle.proc_replay.specs.Meanings.{move_of};

use crate::judge::legal;
use crate::turn::Turn;
use call_log::{LogHead, LogView};
use guest_process::Process;
use std::alloc::{AllocError, Global};
use std::marker::Model;

/// A process after the events so far, and what is left of its log.
pub struct Replayer<'m, 'a> {
    process: Process<'m>,
    // Behind a box, since a replay is moved at each event.
    ahead: Box<Ahead<'a>>,
}

// By hand, so that it is proved here, and not in each crate that owns one.
impl Drop for Replayer<'_, '_> {
    fn drop(self) {
        let Self {
            process: _process,
            ahead: _ahead,
        } = self;
    }
}

// What is left of the log; what the next turn gives, so that each entry is read and judged once; and the log after the
// entry that comes next.
#[derive(Drop)]
struct Ahead<'a> {
    log: LogView<'a>,
    turn: Turn<'a>,
    following: LogView<'a>,
}

impl<'m, 'a> Model for Replayer<'m, 'a> {
    ghost use Rattle.std.specs.Coded.{codes};
    ghost use Rattle.guest_process.specs.Coding.{crew_code, trees_code};
    ghost use Rattle.proc_replay.specs.Replaying.{Replaying};
    ghost use Rattle.proc_replay.specs.inside.Ahead.{replaying, IsReplayer};

    ghost Value = { Replaying };

    ghost coded = { Prim.hlevel (codes, trees_code, crew_code) };

    ghost view = { λ r. replaying r.process r.ahead.value.log };

    ghost invariant = { IsReplayer };
}

impl<'m, 'a> Replayer<'m, 'a> {
    /// The replay of a process that has had no event, from the log of that process.
    pub fn begin(
        alloc: Global,
        process: Process<'m>,
        log: LogView<'a>,
    ) -> Result<Replayer<'m, 'a>, AllocError>
        requires who { process.who ≡ log.head.process }
        requires count { process.count ≡ log.head.count }
        requires fresh { process.events ≡ 0 }
        ensures { IfOk result (λ r. r ≡ record { head = log.entry.head; state = process.entry; left = log.entry.left }) }
    {
        // The proof needs that what is left is a slice, and so shorter than 2 ^ 63 bytes.
        let _ = log.unread().len();
        let mut ahead = Ahead {
            log: log.copy(),
            turn: Turn::LogEnd,
            following: log,
        };
        ahead.look(&process);
        let ahead = Box::new(alloc, ahead)?;
        Ok(Replayer { process, ahead })
    }

    /// What the next turn gives. It takes no memory.
    pub fn peek(&self) -> Turn<'a>
        ensures { move_of result ≡ turn self.now }
    {
        self.ahead.turn
    }

    /// The next turn. At the log's end and at a divergence nothing changes, and the same comes again.
    #[inline(always)]
    pub fn next_event(self) -> Result<(Replayer<'m, 'a>, Turn<'a>), AllocError>
        ensures turn { IfOk result (λ r. move_of r.1 ≡ turn self.entry) }
        ensures after { IfOk result (λ r. r.0 ≡ after_replay_turn self.entry) }
    {
        call_log::laws::entry_by_entry();
        guest_process::laws::counting();
        let Replayer { process, mut ahead } = self;
        let turn = ahead.turn;
        let Turn::Event(entry) = &turn else {
            return Ok((Replayer { process, ahead }, turn));
        };
        let process = process.advance(entry)?;
        ahead.go_on(&process);
        Ok((Replayer { process, ahead }, turn))
    }

    /// The process after the events so far.
    pub fn process(&self) -> &Process<'m>
        ensures { result.now ≡ self.now.state }
    {
        &self.process
    }

    /// The number of events so far.
    pub fn event_count(&self) -> u64
        ensures count { result ≡ self.now.state.events }
        ensures small { result * least_entry < 2 ^ 63 }
    {
        self.process.events()
    }

    /// The number of the log's bytes after the entries of the events so far.
    pub fn unread_len(&self) -> u64
        ensures { result ≡ length self.now.left.bytes }
    {
        self.ahead.log.unread().len() as u64
    }

    /// The log after the entries of the events so far.
    pub fn log(&self) -> LogView<'a>
        ensures { result ≡ record { head = self.now.head; left = self.now.left } }
    {
        self.ahead.log.copy()
    }

    /// The log's head.
    pub fn head(&self) -> LogHead<'a>
        ensures { head_of result ≡ self.now.head }
    {
        self.ahead.log.head()
    }

    /// An equal replay.
    pub fn copy(&self, alloc: Global) -> Result<Replayer<'m, 'a>, AllocError>
        ensures { IfOk result (λ r. r ≡ self.now) }
    {
        let process = self.process.copy(alloc)?;
        let ahead = Box::new(alloc, self.ahead.copy())?;
        Ok(Replayer { process, ahead })
    }
}

impl<'a> Ahead<'a> {
    // Goes on after the entry that comes next, whose event led to this process.
    fn go_on(&mut self, process: &Process<'_>)
        requires { FitsEventCount process.now self.old.following }
        ensures log { self.new.log ≡ self.old.following }
        ensures ahead { IsLookahead (replaying process.now self.old.following) self.new.turn self.new.following }
    {
        self.log = self.following.copy();
        self.look(process);
    }

    // Reads the entry that stands next, and judges it. The turn is written where it is kept, and not moved there.
    fn look(&mut self, process: &Process<'_>)
        requires { FitsEventCount process.now self.old.following }
        ensures log { self.new.log ≡ self.old.log }
        ensures ahead { IsLookahead (replaying process.now self.old.following) self.new.turn self.new.following }
    {
        let Some(entry) = self.following.next_entry() else {
            self.turn = Turn::LogEnd;
            return;
        };
        match legal(process, &entry) {
            Ok(()) => self.turn = Turn::Event(entry),
            Err(why) => self.turn = Turn::Diverged(process.events() + 1, why),
        }
    }

    fn copy(&self) -> Ahead<'a>
        ensures { result ≡ self.now }
    {
        Ahead {
            log: self.log.copy(),
            turn: self.turn,
            following: self.following.copy(),
        }
    }
}
