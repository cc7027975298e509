// A log with its bytes.
ghost use Rattle.std.specs.Prelude.{◌≡◌, ◌++◌, None, Some, IfOk, OnErr};
ghost use Rattle.call_log.specs.Head.{BeginsNoHead, IsHead, head_bytes, head_of};
ghost use Rattle.call_log.specs.Log.{head_at};

use crate::head::{BadHead, LogHead, read_head};
use crate::version::Version;
use crate::view::LogView;
use std::marker::Model;

// Where the name begins: after the magic bytes, the version, the two numbers and its length.
const NAME_START: usize = 17;

/// A log that keeps its bytes, with its head found in them.
pub struct LogBuf {
    bytes: Vec<u8>,
    version: Version,
    count: u32,
    process: u32,
    // Where the name ends, and with it the head.
    head_end: usize,
}

// By hand, so that it is proved here, and not in each crate that owns one.
impl Drop for LogBuf {
    fn drop(self) {
        let Self {
            bytes: _bytes,
            version: _version,
            count: _count,
            process: _process,
            head_end: _head_end,
        } = self;
    }
}

impl Model for LogBuf {
    ghost use Rattle.call_log.specs.Log.{Log};
    ghost use Rattle.call_log.specs.inside.Kept.{AreLog, kept_log};

    ghost Value = { Log };

    ghost view = { λ log. kept_log log.bytes.items log.version log.count log.process log.head_end };

    ghost invariant = { λ log. AreLog log.bytes.items (kept_log log.bytes.items log.version log.count log.process log.head_end) log.head_end };
}

impl LogBuf {
    /// The log whose head these bytes begin with.
    pub fn begin(bytes: Vec<u8>) -> Result<LogBuf, BadHead>
        ensures head { IfOk result (λ log. IsHead log.head) }
        ensures spelled { IfOk result (λ log. bytes.items ≡ head_bytes log.head ++ log.left.bytes) }
        ensures bad { OnErr result (BeginsNoHead bytes.items) }
        ensures found { IfOk result (λ log. head_at bytes.items ≡ Some (log.head, log.left)) }
        ensures missing { OnErr result (head_at bytes.items ≡ None) }
    {
        fri_bytes::laws::exact_readers();
        let Some((head, rest)) = read_head(&bytes) else {
            return Err(BadHead);
        };
        let LogHead {
            version,
            count,
            process,
            ..
        } = head;
        let head_end = bytes.len() - rest.len();
        Ok(LogBuf {
            bytes,
            version,
            count,
            process,
            head_end,
        })
    }

    /// The head.
    pub fn head(&self) -> LogHead<'_>
        ensures { head_of result ≡ self.now.head }
    {
        LogHead {
            version: self.version,
            count: self.count,
            process: self.process,
            name: &self.bytes[NAME_START..self.head_end],
        }
    }

    /// The log after its head, which is not read again.
    pub fn view(&self) -> LogView<'_>
        ensures { result ≡ self.now }
    {
        LogView::after_head(self.head(), &self.bytes[self.head_end..])
    }
}
