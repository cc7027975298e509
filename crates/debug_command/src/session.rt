// The debugger as a session that answers lines.
ghost use Rattle.std.specs.Prelude.{◌≡◌, ◌<◌, IfOk, codes};
ghost use Rattle.group_state.specs.Place.{AreGroupReplays};
ghost use Rattle.friday_shell.specs.Points.{SessionState};
ghost use Rattle.friday_shell.specs.Session.{opening_session};
ghost use Rattle.conversation.specs.Conversing.{Converses, terminal_at};
ghost use Rattle.debug_command.specs.Session.{shell_answer, shell_talker};

use command_run::Status;
use conversation::laws::ends_unbegun;
use conversation::{Go, LineSession, converse};
use fri_outside::Terminal;
use fri_text::Text;
use friday_shell::Session;
use group_state::Group;
use proc_replay::Replayer;
use std::alloc::{AllocError, Global};
use std::sync::ledger::{Blank, Ledger};
use watch_expr::Steps;

// A session of the shell, with the counter of the evaluations of watchpoints, and what it answered last.
#[derive(Drop)]
struct Debugger<'m, 'a, L: Ledger> {
    session: Session<'m, 'a>,
    steps: Steps<L>,
    said: Text,
}

impl<'m, 'a, L: Ledger> LineSession for Debugger<'m, 'a, L> {
    ghost State = { SessionState };

    ghost answer = { shell_answer };

    ghost stands = { λ debugger state. debugger.session ≡ state };

    ghost text = { λ debugger. debugger.said };

    fn answer_line(self, alloc: Global, line: &[u8]) -> Result<(Self, Go), AllocError> {
        let Debugger {
            session,
            mut steps,
            said: _,
        } = self;
        let (session, said, goes) = session.answer_line(alloc, line, &mut steps)?;
        let debugger = Debugger {
            session,
            steps,
            said,
        };
        Ok((debugger, goes))
    }

    fn said(&self) -> &[u8] {
        self.said.bytes()
    }
}

// A session over these replays, and the line with which it begins.
fn begin<'m, 'a, L: Ledger>(
    alloc: Global,
    blank: Blank,
    replayers: Vec<Replayer<'m, 'a>>,
) -> Result<(Debugger<'m, 'a, L>, Text), AllocError>
    requires name { blank.name ≡ L.name }
    requires parts { blank.parts ≡ L.parts }
    requires some { 0 < blank.parts }
    requires replays { AreGroupReplays replayers.items }
    ensures session { IfOk result (λ begun. begun.0.session ≡ opening_session replayers.entry.items) }
    ensures text { IfOk result (λ begun. begun.1 ≡ codes "at 0\n") }
{
    let steps = Steps::new(blank);
    let group = Group::begin(alloc, replayers)?;
    let (session, opening) = Session::begin(alloc, group)?;
    let debugger = Debugger {
        session,
        steps,
        said: Text::new(alloc),
    };
    Ok((debugger, opening))
}

/// Answers each whole line of the input before it asks for more, and ends after a line that ends the session, or
/// after the last line. The counter of the evaluations of watchpoints begins with the session.
pub(crate) fn debug_lines<'m, 'a, T: Terminal, L: Ledger>(
    alloc: Global,
    blank: Blank,
    replayers: Vec<Replayer<'m, 'a>>,
    io: &mut T,
) -> Status
    requires name { blank.name ≡ L.name }
    requires parts { blank.parts ≡ L.parts }
    requires some { 0 < blank.parts }
    requires replays { AreGroupReplays replayers.items }
    ensures { let terminal = terminal_at T.hearing T.taken T.faults in Converses (shell_talker replayers.entry.items) (terminal io.old) (terminal io.new) result }
{
    match begin::<L>(alloc, blank, replayers) {
        Ok((session, opening)) => converse(alloc, session, opening, io),
        Err(_) => {
            ends_unbegun::<Debugger<'m, 'a, L>>();
            Status::NoMemory
        }
    }
}
