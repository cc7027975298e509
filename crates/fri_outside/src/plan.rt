// Which calls of an object in memory are to fail.
ghost use Rattle.std.specs.Prelude.{◌≡◌, ◌↔◌, IsTrue, OnOk, OnErr};
ghost use Rattle.fri_outside.specs.Memory.{no_failures, IsDueFailure, after_call, with_failure};

use std::alloc::{AllocError, Global};
use std::marker::Model;

/// The number of calls that were made, and the numbers of those that are to fail.
#[derive(Drop)]
pub(crate) struct FailurePlan {
    calls: u64,
    failing: Vec<u64>,
}

impl Model for FailurePlan {
    ghost use Rattle.fri_outside.specs.Memory.{FailurePlan};

    ghost Value = { FailurePlan };

    ghost view = { λ plan. record { calls = plan.calls; failing = plan.failing.items } };
}

impl FailurePlan {
    pub(crate) fn new(alloc: Global) -> Self
        ensures { result ≡ no_failures }
    {
        FailurePlan {
            calls: 0,
            failing: Vec::new(alloc),
        }
    }

    /// Lets the call of this number fail, where the first call has the number 1.
    pub(crate) fn fail_at(&mut self, call: u64) -> Result<(), AllocError>
        ensures ok { OnOk result (self.new ≡ with_failure call self.old) }
        ensures err { OnErr result (self.new ≡ self.old) }
    {
        self.failing.push(call)?;
        Ok(())
    }

    /// Counts a call, and says whether it is to fail.
    pub(crate) fn count_call(&mut self) -> bool
        ensures due { IsTrue result ↔ IsDueFailure self.old }
        ensures counted { self.new ≡ after_call self.old }
    {
        self.calls = self.calls.saturating_add(1);
        self.failing.contains(&self.calls)
    }
}
