// The schedule of a group that hands a number round.
ghost use Rattle.std.specs.Prelude.{◌≡◌, ◌≤◌, ◌++◌, IfOk, OnOk};
ghost use Rattle.schedule_text.specs.Drill.{drill_processes, drill_round, drill_schedule, drill_start, ring_line};
ghost use Rattle.schedule_text.specs.Limits.{most_rounds};
ghost use Rattle.schedule_text.specs.Schedule.{IsSchedule};

use crate::item::Item;
use crate::process::ProcessLine;
use crate::schedule::Schedule;
use fri_bytes::Bytes;
use std::alloc::{AllocError, Global};

#[tactic(auto, using(crate::proofs::DrillLemmas::drill_within, crate::proofs::DrillLemmas::drill_more))]
/// The schedule of a group of four processes of the module `ring`, in which so many rounds a datagram goes from a
/// process to the next. In each third round the process is tried before its datagram has come.
pub fn drill(alloc: Global, rounds: u32) -> Result<Schedule, AllocError>
    requires some { 1 ≤ rounds }
    requires few { rounds ≤ most_rounds }
    ensures exact { IfOk result (λ schedule. schedule ≡ drill_schedule rounds) }
    // It is within the limits.
    ensures limits { IsSchedule (drill_schedule rounds) }
{
    let processes = processes(alloc)?;
    let mut items = first_items(alloc)?;
    for done in 0..rounds {
        push_round(&mut items, done + 1)?;
    }
    Ok(Schedule::new(processes, items))
}

// A process of this name.
fn line(alloc: Global, name: &[u8]) -> Result<ProcessLine, AllocError>
    ensures { IfOk result (λ line. line ≡ ring_line name.now) }
{
    Ok(ProcessLine {
        name: Bytes::from_slice(alloc, name)?,
        module: Bytes::from_slice(alloc, b"ring")?,
    })
}

fn processes(alloc: Global) -> Result<Vec<ProcessLine>, AllocError>
    ensures { IfOk result (λ lines. lines.items ≡ drill_processes) }
{
    let n0 = line(alloc, b"n0")?;
    let n1 = line(alloc, b"n1")?;
    let n2 = line(alloc, b"n2")?;
    let n3 = line(alloc, b"n3")?;
    Ok(vec![in alloc; n0, n1, n2, n3]?)
}

fn run(process: u32, times: u32) -> Item
    ensures { result ≡ Item.Run process 0 times }
{
    Item::Run {
        process,
        thread: 0,
        times,
    }
}

fn first_items(alloc: Global) -> Result<Vec<Item>, AllocError>
    ensures { IfOk result (λ items. items.items ≡ drill_start) }
{
    Ok(vec![in alloc; run(0, 3), run(1, 2), run(2, 2), run(3, 2)]?)
}

// Adds the items of a round, from 1.
fn push_round(items: &mut Vec<Item>, round: u32) -> Result<(), AllocError>
    requires { 1 ≤ round }
    ensures { OnOk result (items.new.items ≡ items.old.items ++ drill_round round) }
{
    let process = round % 4;
    if round % 3 == 0 {
        items.push(run(process, 1))?;
    }
    items.push(Item::Deliver {
        process: (round - 1) % 4,
        number: u64::from((round - 1) / 4) + 1,
    })?;
    items.push(run(process, 2))?;
    Ok(())
}
