// The laws of stamps, as calls that do nothing.
ghost use Rattle.guest_memory.specs.Laws.{FreshIsUnstamped, KeepsPages, NoLaterWhenGrown, NoLaterWhenWritten, TellsWhenGrown, TellsWhenWritten};

/// No write stamps a page later than the event that writes, growth stamps none, and a new memory bears no
/// event's number.
pub fn stamps_no_later()
    ensures written { NoLaterWhenWritten }
    ensures grown { NoLaterWhenGrown }
    ensures fresh { FreshIsUnstamped }
{}

/// A page that does not bear the number of the event that writes is as it was. A write leaves how many pages
/// there are.
pub fn stamps_tell()
    ensures written { TellsWhenWritten }
    ensures grown { TellsWhenGrown }
    ensures pages { KeepsPages }
{}
