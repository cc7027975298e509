// A group that goes forwards and backwards over the logs of a ring.
use crate::recorded::{begin, load, record, shared};
use fri_outside::MemFiles;
use fri_text::Text;
use group_state::Group;
use guest_module::SharedModule;
use log_pairs::Pair;
use std::alloc::{AllocError, Global};
use std::process::Abort;
use std::test::Fail;

// Each process of the ring takes a datagram, counts it at 64 and at 1024, and sends what is at 64 to the next.
const RING: &[u8] = b"\0asm\x01\0\0\0\x01\x0f\x03`\0\x01\x7f`\x03\x7f\x7f\x7f\x01\x7f`\0\0\
    \x02)\x03\x06liblog\x02me\0\0\x06liblog\x04send\0\x01\x06liblog\x04recv\0\x01\x03\x02\x01\x02\
    \x05\x03\x01\0\x01\x07\x0a\x01\x06_start\0\x03\x0aW\x01U\x01\x01\x7f\x10\0!\0\x20\0E\x04@\
    A\x01A\xc0\0A\x08\x10\x01\x1a\x0b\x03@A\xc0\0A\x08A\x20\x10\x02\x1a\
    A\xc0\0A\xc0\0)\x03\0B\x01|7\x03\0A\x80\x08A\x80\x08)\x03\0B\x01|7\x03\0\
    \x20\0A\x01jA\x03qA\xc0\0A\x08\x10\x01\x1a\x0c\0\x0b\x0b";

const PAIRS: &[Pair<'static>] = &[
    Pair {
        module_file: "ring.wasm",
        log_file: "n0.log",
    },
    Pair {
        module_file: "ring.wasm",
        log_file: "n1.log",
    },
    Pair {
        module_file: "ring.wasm",
        log_file: "n2.log",
    },
    Pair {
        module_file: "ring.wasm",
        log_file: "n3.log",
    },
];

const BEGINNING: &str = "friday 1\nprocess n0 ring.wasm\nprocess n1 ring.wasm\n\
    process n2 ring.wasm\nprocess n3 ring.wasm\nrun 0 0 3\nrun 1 0 2\nrun 2 0 2\nrun 3 0 2\n";

// So many datagrams go round.
const ROUNDS: u64 = 2000;

// A process tries to go on with nothing to take.
fn push_idle(text: &mut Text, process: u64) -> Result<(), AllocError> {
    text.push_str("run ")?;
    text.push_u64(process)?;
    text.push_str(" 0 1\n")
}

// A process takes the datagram of this number that another sent, and sends the next.
fn push_turn(text: &mut Text, sender: u64, number: u64, process: u64) -> Result<(), AllocError> {
    text.push_str("deliver ")?;
    text.push_u64(sender)?;
    text.push_str(" ")?;
    text.push_u64(number)?;
    text.push_str("\nrun ")?;
    text.push_u64(process)?;
    text.push_str(" 0 2\n")
}

fn schedule(alloc: Global) -> Result<Text, AllocError> {
    let mut text = Text::new(alloc);
    text.push_str(BEGINNING)?;
    for round in 0..ROUNDS {
        let process = (round + 1) % 4;
        if (round + 1) % 3 == 0 {
            push_idle(&mut text, process)?;
        }
        push_turn(&mut text, round % 4, round / 4 + 1, process)?;
    }
    Ok(text)
}

// Of the ring's processes, whose module is one.
fn modules(alloc: Global) -> Result<Vec<SharedModule>, Fail> {
    let module = shared(alloc, RING)?;
    let mut modules = Vec::new(alloc);
    for _ in PAIRS {
        modules.push(module.share()?)?;
    }
    Ok(modules)
}

// The ring's module and the logs of its processes.
fn files(rt: &(impl Abort + AllocGlobal)) -> Result<MemFiles, Fail> {
    let alloc = rt.alloc();
    let modules = modules(alloc)?;
    let mut files = MemFiles::new(alloc);
    files.put("ring.wasm", RING)?;
    record(rt, schedule(alloc)?.bytes(), &modules, &mut files)?;
    Ok(files)
}

// A position to go to, where the group is then, and how many events are replayed on the way.
type Way = (u64, u64, u64);

// Checkpoints come at 256 and its multiples up to 1,792. At 2,048 there would be nine, and from there on they are 512
// apart. The events are 4,009; the way to a position past them leads to the last one, and back.
const WAYS: &[Way] = &[
    (3000, 3000, 3000),
    (2999, 2999, 439),
    (1, 1, 1),
    (3000, 3000, 440),
    (2560, 2560, 0),
    (2561, 2561, 1),
    (2559, 2559, 511),
    (1792, 1792, 256),
    (5000, 1792, 1449 + 256),
    (4009, 4009, 425),
    (4010, 4009, 0),
];

// Where the group is, and how many events it has replayed since it began.
fn shown(group: &Group<'_, '_>) -> (u64, u64) {
    (group.position(), group.work().events)
}

// Goes to a position.
fn go(
    alloc: Global,
    group: &mut Group<'_, '_>,
    target: u64,
    ways: &mut Vec<Way>,
) -> Result<(), AllocError> {
    let (_, before) = shown(group);
    group.goto(alloc, target)?;
    let (position, events) = shown(group);
    ways.push((target, position, events.wrapping_sub(before)))?;
    Ok(())
}

// The ways of a group that goes to each of the positions.
fn ways_of(alloc: Global, group: &mut Group<'_, '_>) -> Result<Vec<Way>, AllocError> {
    let mut ways = Vec::new(alloc);
    for (target, _, _) in WAYS {
        go(alloc, group, *target, &mut ways)?;
    }
    Ok(ways)
}

#[test]
fn a_group_goes_back_from_its_checkpoints(rt: HostRuntime) -> Result<(), Fail> {
    let mut files = files(&rt)?;
    let all = load(rt.alloc(), PAIRS, &mut files)?;
    let ways = ways_of(rt.alloc(), &mut begin(rt.alloc(), &all)?)?;
    assert_eq!(rt; ways.as_slice(), WAYS);
    Ok(())
}
