// Reading a log from its front.
ghost use Rattle.std.specs.Prelude.{◌≡◌, ◌≤◌, ◌+◌, [], ◌∷◌, ◌++◌, length, option_map, None, Some, IfOk, OnErr, IfSome, IfNone, MatchOption};
ghost use Rattle.lib_calls.specs.Entry.{IsShaped, entry_of};
ghost use Rattle.call_log.specs.Entry.{BeginsNoEntry, encoding};
ghost use Rattle.call_log.specs.Head.{BeginsNoHead, IsHead, head_bytes, head_of};
ghost use Rattle.call_log.specs.Limits.{least_entry};
ghost use Rattle.call_log.specs.Log.{entries_of, entry_at, head_at, rest_of_log, unread_after_head};

use crate::entry::read_entry;
use crate::head::{BadHead, LogHead, read_head};
use crate::version::Version;
use lib_calls::EntryView;
use std::marker::Model;

/// A log that is read from its front.
#[derive(Drop)]
pub struct LogView<'a> {
    head: LogHead<'a>,
    // The clock of the entry that was read last.
    last: u64,
    rest: &'a [u8],
}

impl<'a> Model for LogView<'a> {
    ghost use Rattle.call_log.specs.Head.{IsHead, head_of};
    ghost use Rattle.call_log.specs.Log.{Log};

    ghost Value = { Log };

    ghost view = { λ log. record { head = head_of log.head; left = record { version = log.head.version; last = log.last; bytes = log.rest.now } } };

    ghost invariant = { λ log. IsHead (head_of log.head) };
}

impl<'a> LogView<'a> {
    /// The log after its head.
    pub fn begin(bytes: &'a [u8]) -> Result<LogView<'a>, BadHead>
        ensures head { IfOk result (λ log. IsHead log.head) }
        ensures spelled { IfOk result (λ log. bytes.now ≡ head_bytes log.head ++ log.left.bytes) }
        ensures bad { OnErr result (BeginsNoHead bytes.now) }
        ensures found { IfOk result (λ log. head_at bytes.now ≡ Some (log.head, log.left)) }
        ensures missing { OnErr result (head_at bytes.now ≡ None) }
    {
        fri_bytes::laws::exact_readers();
        let Some((head, rest)) = read_head(bytes) else {
            return Err(BadHead);
        };
        Ok(LogView::after_head(head, rest))
    }

    // The log with this head, whose entries these bytes are.
    pub(crate) fn after_head(head: LogHead<'a>, rest: &'a [u8]) -> LogView<'a>
        requires { IsHead (head_of head) }
        ensures { result ≡ record { head = head_of head.entry; left = unread_after_head (head_of head.entry) rest.now } }
    {
        LogView {
            head,
            last: 0,
            rest,
        }
    }

    /// The head.
    pub fn head(&self) -> LogHead<'a>
        ensures { head_of result ≡ self.now.head }
    {
        self.head
    }

    // The head of a log of this version that is else the same.
    pub(crate) fn head_in(&self, version: Version) -> LogHead<'a>
        ensures value { head_of result ≡ record self.now.head { version = version } }
        ensures fits { IsHead (head_of result) }
    {
        LogHead {
            version,
            ..self.head
        }
    }

    /// The next entry. Its outgoing and incoming bytes are pieces of the log. None comes where no entry
    /// comes next, as at the end, before a cut entry or one with a byte too many, and then the
    /// log stays where it is.
    pub fn next_entry(&mut self) -> Option<EntryView<'a>>
        ensures shaped { IfSome result (λ e. IsShaped (entry_of e)) }
        ensures taken { IfSome result (λ e. self.old.left.bytes ≡ encoding self.old.left.version self.old.left.last (entry_of e) ++ self.new.left.bytes) }
        ensures none { IfNone result (BeginsNoEntry self.old.left.version self.old.left.last self.old.left.bytes) }
        ensures unchanged { IfNone result (self.new ≡ self.old) }
        ensures exact { option_map (λ e. (entry_of e, self.new.left)) result ≡ entry_at self.old.left }
        ensures head { self.new.head ≡ self.old.head }

        // It is the first of all entries, and the others are those of what is left.
        ensures entries { MatchOption result (entries_of self.old.left ≡ [])
            (λ e. entries_of self.old.left ≡ entry_of e ∷ entries_of self.new.left) }
        ensures rest { rest_of_log self.old.left ≡ rest_of_log self.new.left }
        ensures end { IfNone result (rest_of_log self.new.left ≡ self.new.left.bytes) }
        ensures shorter { IfSome result (λ _. length self.new.left.bytes + least_entry ≤ length self.old.left.bytes) }
    {
        fri_bytes::laws::exact_readers();
        let (entry, rest) = read_entry(self.rest, self.head.version, self.last)?;
        self.last = entry.clock;
        self.rest = rest;
        Some(entry)
    }

    /// The bytes after the entries that were read.
    pub fn unread(&self) -> &'a [u8]
        ensures { result.now ≡ self.now.left.bytes }
    {
        self.rest
    }

    /// The same log, at the same place.
    pub fn copy(&self) -> LogView<'a>
        ensures { result ≡ self.now }
    {
        LogView {
            head: self.head,
            last: self.last,
            rest: self.rest,
        }
    }
}
