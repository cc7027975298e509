// What is so of all conversations, as a call that does nothing.
ghost use Rattle.conversation.specs.Laws.{EndsUnbegun};

use crate::LineSession;

/// A session that could not begin for want of memory ended so, where nothing was printed and nothing was read.
pub fn ends_unbegun<S: LineSession>()
    ensures { EndsUnbegun S.answer }
{}
