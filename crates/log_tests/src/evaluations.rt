// How often a session evaluates, by what it reads of the processes on 600 events.
ghost use Rattle.std.specs.Prelude.{◌≡◌, ◌<◌};

use crate::recorded::{begin, load, record, shared};
use fri_outside::MemFiles;
use friday_shell::Session;
use group_state::Group;
use log_pairs::Pair;
use std::alloc::{AllocError, Global};
use std::marker::Brand;
use std::process::Abort;
use std::sync::ledger::{Blank, Ledger};
use std::test::Fail;
use watch_expr::Steps;

// It asks for its number again and again. After every second event it sets the global 0 to what it was, stores what was
// there at an edge of two pages, and grows its memory by no page, and by one for which there is no room.
const GUEST: &[u8] = b"\0asm\x01\0\0\0\x01\x08\x02`\0\x01\x7f`\0\0\x02\x0d\x01\x06liblog\x02me\0\0\
    \x03\x02\x01\x01\x05\x04\x01\x01\x01\x01\x06\x06\x01\x7f\x01A\0\x0b\x07\x0a\x01\x06_start\0\x01\
    \x0a\x25\x01\x23\0\x03@\x10\0\x1aA\0$\0A\xfe\x1fA\06\x02\0A\0@\0\x1aA\x01@\0\x1a\x10\0\x1a\x0c\0\x0b\x0b";

// Their events come in turn, as they have equal clocks.
const SCHEDULE: &[u8] = b"friday 1\nprocess a a.wasm\nprocess b a.wasm\nprocess c a.wasm\n\
    run 0 0 200\nrun 1 0 200\nrun 2 0 200\n";

const PAIRS: &[Pair<'static>] = &[
    Pair {
        module_file: "a.wasm",
        log_file: "a.log",
    },
    Pair {
        module_file: "a.wasm",
        log_file: "b.log",
    },
    Pair {
        module_file: "a.wasm",
        log_file: "c.log",
    },
];

// A line, the position to which it leads, and how often it reads something of a process.
type Line = (&'static str, u64, u64);

// No value changes, so no walk stops. A walk evaluates all watchpoints where it begins, and then after events that touched them.
const LINES: &[Line] = &[
    // Each of these reads once.
    ("watch @a.clock < 0", 0, 0),
    ("watch @b.events < 0", 0, 0),
    ("watch @c.global[0]", 0, 0),
    ("continue", 600, 3 + 200 + 200 + 100),
    ("rcontinue", 0, 3 + 200 + 200 + 99),
    ("goto 300", 300, 0),
    ("continue", 600, 3 + 100 + 100 + 50),
    ("delete 1", 600, 0),
    ("delete 2", 600, 0),
    ("delete 3", 600, 0),
    // A load reads the memory's size and each page, and the sum only of the process that was touched. Nothing touches the last.
    ("watch sum(@_.u32[64])", 600, 0),
    ("watch @b.u32[4094]", 600, 0),
    ("watch @b.u8[8192] + @b.size", 600, 0),
    ("rcontinue", 0, 6 + 3 + 3 + 2 * 299 + 3 * 100),
    ("continue", 600, 6 + 3 + 3 + 2 * 300 + 3 * 100),
    ("delete 4", 600, 0),
    ("delete 5", 600, 0),
    ("delete 6", 600, 0),
    // A condition is evaluated where the point would fire without it.
    ("break b me if @c.clock < 0", 600, 0),
    ("rcontinue", 0, 199),
    ("continue", 600, 199),
];

// The module, and the logs of the processes.
fn files(rt: &(impl Abort + AllocGlobal)) -> Result<MemFiles, Fail> {
    let alloc = rt.alloc();
    let mut files = MemFiles::new(alloc);
    files.put("a.wasm", GUEST)?;
    let module = shared(alloc, GUEST)?;
    let mut modules = Vec::new(alloc);
    for _ in PAIRS {
        modules.push(module.share()?)?;
    }
    record(rt, SCHEDULE, &modules, &mut files)?;
    Ok(files)
}

// Where the session is, and how often its group was read.
fn shown(session: &Session<'_, '_>) -> (u64, u64) {
    let group = session.group();
    (group.position(), group.work().reads)
}

// The session after a line.
fn say<'m, L: Ledger>(
    alloc: Global,
    session: Session<'m, 'm>,
    line: &'static str,
    steps: &mut Steps<L>,
    said: &mut Vec<Line>,
) -> Result<Session<'m, 'm>, AllocError> {
    let (_, before) = shown(&session);
    let (session, _, _) = session.answer_line(alloc, line.as_bytes(), steps)?;
    let (position, reads) = shown(&session);
    said.push((line, position, reads.wrapping_sub(before)))?;
    Ok(session)
}

fn say_all<'m, L: Ledger>(
    alloc: Global,
    session: Session<'m, 'm>,
    steps: &mut Steps<L>,
    said: &mut Vec<Line>,
) -> Result<(), AllocError> {
    let mut session = session;
    for (line, _, _) in LINES {
        session = say(alloc, session, line, steps, said)?;
    }
    Ok(())
}

// What the lines come to in a session over the group.
fn said_over<'m, L: Ledger>(
    alloc: Global,
    group: Group<'m, 'm>,
    blank: Blank,
) -> Result<Vec<Line>, AllocError>
    requires at { group.at ≡ 0 }
    requires name { blank.name ≡ L.name }
    requires parts { blank.parts ≡ L.parts }
    requires some { 0 < blank.parts }
{
    let mut steps = Steps::<L>::new(blank);
    let (session, _) = Session::begin(alloc, group)?;
    let mut said: Vec<Line> = Vec::new(alloc);
    say_all(alloc, session, &mut steps, &mut said)?;
    Ok(said)
}

#[test]
fn a_session_evaluates_where_its_points_were_touched(rt: HostRuntime) -> Result<(), Fail> {
    let mut files = files(&rt)?;
    let all = load(rt.alloc(), PAIRS, &mut files)?;
    let group = begin(rt.alloc(), &all)?;
    let said = said_over::<Brand>(rt.alloc(), group, Blank::new(1))?;
    assert_eq!(rt; said.as_slice(), LINES);
    Ok(())
}
