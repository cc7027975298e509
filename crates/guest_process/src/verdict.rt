// What is said of a log.
use crate::divergence::Divergence;

/// What is said of a log: all its entries are accepted and nothing is left; so many bytes are left after them;
/// or the entry of this number, from 1, is not legal.
#[derive(Clone, Copy, Drop)]
pub enum Verdict {
    Whole,
    Left(u64),
    Diverged(u64, Divergence),
}
