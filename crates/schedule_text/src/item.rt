// The items of a schedule.
ghost use Rattle.std.specs.Prelude.{◌≡◌, IfOk, option_map};
ghost use Rattle.schedule_text.specs.Schedule.{tries as item_tries};
ghost use Rattle.schedule_text.specs.Reading.{item_by_word, run_item, pair_in, deliver_item, bytes_in, inject_item, clock_item, random_item, signal_item, kill_item};

use crate::fields::Fields;
use crate::limits::{MOST_DATAGRAM, MOST_THREAD_NUMBER};
use crate::word::{bytes, number, positive, process_number, times};
use fri_bytes::Bytes;
use fri_text::read_signed;
use guest_signals::MOST_SIGNAL;
use std::alloc::{AllocError, Global};

/// What happens next in a group. Processes are numbered from 0 in the order of their lines.
#[derive(Drop)]
pub enum Item {
    /// `times` tries, each by itself, to make an event of the thread. The thread is 0 to `MOST_THREAD_NUMBER`,
    /// and the tries are 1 to `MOST_RUNS`.
    Run {
        process: u32,
        thread: u16,
        times: u32,
    },
    /// The datagram that the process sent with this number, from 1 to `MOST_DATAGRAM`, comes to its
    /// receiver.
    Deliver {
        process: u32,
        number: u64,
    },
    /// The bytes come to the process as a datagram.
    Inject {
        process: u32,
        bytes: Bytes,
    },
    /// The wall time of the process is now `value`.
    Clock {
        process: u32,
        value: i64,
    },
    /// The bytes come to the pool from which the process takes random bytes.
    Random {
        process: u32,
        bytes: Bytes,
    },
    /// The signal, from 1 to `MOST_SIGNAL`, is now pending at the process.
    Signal {
        process: u32,
        signal: u8,
    },
    /// The process makes no further event.
    Kill {
        process: u32,
    },
}

impl Item {
    /// How often the item tries to run a thread.
    pub fn tries(&self) -> u64
        ensures { result ≡ item_tries self.now }
    {
        match self {
            Item::Run { times, .. } => u64::from(*times),
            _ => 0,
        }
    }
}

/// The item of a line with this first word and these fields after it, where there are so many
/// processes.
#[tactic(auto, unfolding(crate::specs::Reading::item_by_word))]
pub(crate) fn read_item(
    alloc: Global,
    word: &[u8],
    processes: u32,
    fields: &mut Fields,
) -> Result<Option<Item>, AllocError>
    ensures { IfOk result (λ item. item ≡ item_by_word processes word.now fields.old) }
{
    if word == b"run".as_slice() {
        Ok(read_run(processes, fields))
    } else if word == b"deliver".as_slice() {
        Ok(read_deliver(processes, fields))
    } else if word == b"inject".as_slice() {
        read_inject(alloc, processes, fields)
    } else if word == b"clock".as_slice() {
        Ok(read_clock(processes, fields))
    } else if word == b"random".as_slice() {
        read_random(alloc, processes, fields)
    } else if word == b"signal".as_slice() {
        Ok(read_signal(processes, fields))
    } else if word == b"kill".as_slice() {
        Ok(read_kill(processes, fields))
    } else {
        Ok(None)
    }
}

/// `run P T` and `run P T N`.
#[tactic(auto, unfolding(crate::specs::Reading::run_item))]
fn read_run(processes: u32, fields: &mut Fields) -> Option<Item>
    ensures { result ≡ run_item processes fields.old }
{
    let process = process_number(fields.next_field()?, processes)?;
    let thread = number(fields.next_field()?, u32::from(MOST_THREAD_NUMBER))? as u16;
    let times = times(fields)?;
    Some(Item::Run {
        process,
        thread,
        times,
    })
}

/// The process P and the one field after it.
#[tactic(auto, unfolding(crate::specs::Reading::pair_in))]
fn read_pair<'a>(processes: u32, fields: &mut Fields<'a>) -> Option<(u32, &'a [u8])>
    ensures { option_map (λ x. (x.0, x.1.now)) result ≡ pair_in processes fields.old }
{
    let process = process_number(fields.next_field()?, processes)?;
    let last = fields.last_field()?;
    Some((process, last))
}

/// `deliver P N`.
#[tactic(auto, unfolding(crate::specs::Reading::deliver_item))]
fn read_deliver(processes: u32, fields: &mut Fields) -> Option<Item>
    ensures { result ≡ deliver_item processes fields.old }
{
    let (process, word) = read_pair(processes, fields)?;
    let number = positive(word, MOST_DATAGRAM)?;
    Some(Item::Deliver { process, number })
}

/// The process P and the bytes of the one field after it.
#[tactic(auto, unfolding(crate::specs::Reading::bytes_in))]
fn read_bytes(
    alloc: Global,
    processes: u32,
    fields: &mut Fields,
) -> Result<Option<(u32, Bytes)>, AllocError>
    ensures { IfOk result (λ found. found ≡ bytes_in processes fields.old) }
{
    let Some((process, word)) = read_pair(processes, fields) else {
        return Ok(None);
    };
    match bytes(alloc, word)? {
        Some(bytes) => Ok(Some((process, bytes))),
        None => Ok(None),
    }
}

/// `inject P HEX`.
#[tactic(auto, unfolding(crate::specs::Reading::inject_item))]
fn read_inject(
    alloc: Global,
    processes: u32,
    fields: &mut Fields,
) -> Result<Option<Item>, AllocError>
    ensures { IfOk result (λ item. item ≡ inject_item processes fields.old) }
{
    match read_bytes(alloc, processes, fields)? {
        Some((process, bytes)) => Ok(Some(Item::Inject { process, bytes })),
        None => Ok(None),
    }
}

/// `clock P V`.
#[tactic(auto, unfolding(crate::specs::Reading::clock_item))]
fn read_clock(processes: u32, fields: &mut Fields) -> Option<Item>
    ensures { result ≡ clock_item processes fields.old }
{
    let (process, word) = read_pair(processes, fields)?;
    let value = read_signed(word).ok()?;
    Some(Item::Clock { process, value })
}

/// `random P HEX`.
#[tactic(auto, unfolding(crate::specs::Reading::random_item))]
fn read_random(
    alloc: Global,
    processes: u32,
    fields: &mut Fields,
) -> Result<Option<Item>, AllocError>
    ensures { IfOk result (λ item. item ≡ random_item processes fields.old) }
{
    match read_bytes(alloc, processes, fields)? {
        Some((process, bytes)) => Ok(Some(Item::Random { process, bytes })),
        None => Ok(None),
    }
}

/// `signal P S`.
#[tactic(auto, unfolding(crate::specs::Reading::signal_item))]
fn read_signal(processes: u32, fields: &mut Fields) -> Option<Item>
    ensures { result ≡ signal_item processes fields.old }
{
    let (process, word) = read_pair(processes, fields)?;
    let signal = positive(word, u64::from(MOST_SIGNAL))? as u8;
    Some(Item::Signal { process, signal })
}

/// `kill P`.
#[tactic(auto, unfolding(crate::specs::Reading::kill_item))]
fn read_kill(processes: u32, fields: &mut Fields) -> Option<Item>
    ensures { result ≡ kill_item processes fields.old }
{
    let process = process_number(fields.last_field()?, processes)?;
    Some(Item::Kill { process })
}
