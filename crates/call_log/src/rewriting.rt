// Writing a log again.
ghost use Rattle.std.specs.Prelude.{◌≡◌, IfOk, take};
ghost use Rattle.call_log.specs.Log.{entries_of, rewritten_log};

use crate::put::{put_entry, put_head};
use crate::version::Version;
use crate::view::LogView;
use std::alloc::{AllocError, Global};

/// A log of version 2 with the same head, and at most so many of the entries that stand next in this one.
pub fn rewrite(alloc: Global, log: &LogView<'_>, most: u64) -> Result<Vec<u8>, AllocError>
    ensures { IfOk result (λ bytes. bytes.items ≡ rewritten_log log.now.head (take most (entries_of log.now.left))) }
{
    let mut out = Vec::new(alloc);
    put_head(&mut out, &log.head_in(Version::Two))?;
    let mut left = log.copy();
    let mut last = 0;
    for _ in 0..most {
        let Some(entry) = left.next_entry() else {
            return Ok(out);
        };
        put_entry(&mut out, Version::Two, last, &entry)?;
        last = entry.clock;
    }
    Ok(out)
}
