//! Schedules: the text that says which processes a group has and what happens to them, in order.
//!
//! A schedule is text in lines. A line ends with a line feed or with the text, and one carriage return before its end is
//! dropped. Its fields are separated by spaces and tabs. A line with no field, or whose first field begins with `#`, is passed
//! over. The others are, in this order: the header `friday 1`, as it is here; 1 to `MOST_PROCESSES` lines
//! `process NAME MODULE`, with distinct names, whose processes are numbered from 0; and any number of items, each `run P T`
//! (one try), `run P T N` (N tries), `deliver P N`, `inject P HEX`, `clock P V`, `random P HEX`, `signal P S` or `kill P`.
//!
//! P is the number of a process, T is 0 to `MOST_THREAD_NUMBER`, N is 1 to `MOST_RUNS` after `run` and to `MOST_DATAGRAM` after
//! `deliver`, S is 1 to `MOST_SIGNAL` of `guest_signals`, and V is a signed number of 64 bits. Numbers are written in decimal
//! digits, with any zeros in front; a negative V has one minus. HEX is two hexadecimal digits of either case for each byte, or
//! `-` for no bytes. `ProcessLine` says what NAME and MODULE may be.
//!
//! `read_item_line` reads a single line as an item, whatever stands before it. One schedule is made and not read: that of a
//! group of four processes that hand a number round (`drill`).
#![tactic(auto)]

mod draft;
mod error;
mod fields;
mod item;
mod item_line;
pub mod laws;
mod limits;
mod process;
mod read;
mod ring;
mod schedule;
mod word;
mod write;

pub use error::ScheduleError;
pub use item::Item;
pub use item_line::{is_item_line, read_item_line};
pub use limits::{MOST_DATAGRAM, MOST_ROUNDS, MOST_RUNS, MOST_SCHEDULE, MOST_THREAD_NUMBER};
pub use process::ProcessLine;
pub use read::read_schedule;
pub use ring::drill;
pub use schedule::Schedule;
pub use word::is_module_name;
pub use write::{push_head, push_item, write_schedule};
