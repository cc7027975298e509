// What is read and written by turns.
ghost use Rattle.std.specs.Prelude.{◌≡◌, ◌<◌, ◌≤◌, ◌++◌, ℕ, List, [], None, Some, take, length, IfOk, OnErr, MatchResult};
ghost use Rattle.fri_outside.specs.Outside.{WhenTold, after_source_read};
ghost use Rattle.fri_outside.specs.Terminal.{with_asking};

use crate::{Failed, Sink, Source, WriteError};

/// A sink that is read too, as the two standard streams of a session. It may tell in which order it was read and
/// written.
pub trait Terminal: Sink {
    /// Puts the next bytes at the front of `buf`, as `Source::read` does. Where bytes are given, the time is noted
    /// with all that had been taken by then.
    fn read(&mut self, buf: &mut [u8]) -> Result<usize, Failed>
        requires { 0 < length buf.old }
        ensures bound { IfOk result (λ n. n ≤ length buf.new) }
        ensures bytes { IfOk result (λ n. WhenTold (Self.hearing self.old).left (λ bytes.
            (rest : List ℕ) × ((Self.hearing self.new).left ≡ Some rest) × (bytes ≡ take n buf.new ++ rest))) }
        ensures end { IfOk result (λ n. n ≡ 0 → WhenTold (Self.hearing self.old).left (λ bytes. bytes ≡ [])) }
        ensures same { OnErr result ((Self.hearing self.new).left ≡ (Self.hearing self.old).left) }
        ensures asked { MatchResult result
            (λ n. (Self.hearing self.new).asked ≡ with_asking (Self.taken self.old) (take n buf.new) (Self.hearing self.old).asked)
            (λ _. (Self.hearing self.new).asked ≡ (Self.hearing self.old).asked) }
        ensures counted { (Self.hearing self.new).faults ≡ after_source_read (Self.hearing self.old).faults result }
        ensures taken { Self.taken self.new ≡ Self.taken self.old }
        ensures silent { Self.faults self.new ≡ Self.faults self.old };
}

/// A source and a sink as one terminal. It tells what they tell, and not in which order they were used.
#[derive(Drop)]
pub struct Console<S: Source + Drop, K: Sink + Drop> {
    pub input: S,
    pub out: K,
}

impl<S: Source + Drop, K: Sink + Drop> Sink for Console<S, K> {
    ghost taken = { λ console. K.taken console.out };

    ghost faults = { λ console. K.faults console.out };

    ghost hearing = { λ console. record { left = S.left console.input; faults = S.faults console.input; asked = None } };

    fn write(&mut self, piece: &[u8]) -> Result<usize, WriteError> {
        self.out.write(piece)
    }
}

impl<S: Source + Drop, K: Sink + Drop> Terminal for Console<S, K> {
    fn read(&mut self, buf: &mut [u8]) -> Result<usize, Failed> {
        self.input.read(buf)
    }
}
