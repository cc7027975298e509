// A session as a conversation uses it.
ghost use Rattle.std.specs.Prelude.{◌≡◌, List, ℕ, IfOk};
ghost use Rattle.conversation.specs.Talker.{Answered, AnswersSo};

use std::alloc::{AllocError, Global};

/// Whether a session goes on.
#[derive(Clone, Copy)]
pub enum Go {
    On,
    Quit,
}

/// A session that answers lines, and keeps its last answer. Contracts see it as the states in which it stands, which may tell
/// more than it keeps, and as the text of that answer.
pub trait LineSession: Sized + Drop {
    ghost State: { Type 0 };

    ghost answer: { State → List ℕ → Answered State };

    ghost stands: { Self → State → Type 0 };

    ghost text: { Self → List ℕ };

    /// Answers a line, which is given without its line feed, and says whether the session goes on.
    fn answer_line(self, alloc: Global, line: &[u8]) -> Result<(Self, Go), AllocError>
        ensures { IfOk result (λ answered. (state : State) → stands self state → AnswersSo (answer state line.now) (stands answered.0) (text answered.0) answered.1) };

    /// The last answer.
    fn said(&self) -> &[u8]
        ensures { result.now ≡ text self.now };
}
