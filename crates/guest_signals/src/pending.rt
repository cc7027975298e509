// Which signals are pending.
ghost use Rattle.std.specs.Prelude.{◌≡◌, ◌≢◌, ◌↔◌, ℕ, ◌≤◌, true, false, IsTrue};
ghost use Rattle.guest_signals.specs.Signals.{any_pending, is_pending_in, most_signal, none_pending, with_pending};

use std::marker::Model;

/// A set of signals, from 1 to 31. Whether there is any in it is kept with them, since it is asked at each event.
#[derive(Clone, Copy)]
pub struct Pending {
    signals: [bool; 32],
    any: bool,
}

impl Model for Pending {
    ghost use Rattle.std.specs.Prelude.{◌≡◌, List, Bool};
    ghost use Rattle.std.proofs.Common.{ap, sym};
    ghost use Rattle.guest_signals.specs.Signals.{any_pending};

    ghost Value = { List Bool };

    ghost view = { λ pending. pending.signals };

    ghost invariant = { λ pending. pending.any ≡ any_pending pending.signals };

    ghost inverse = { λ signals. record { signals = signals; any = any_pending signals } };

    ghost inverse_ok = { λ pending kept. ap (λ any. record pending { any = any }) (sym kept) };
}

impl Pending {
    /// No signal.
    pub fn new() -> Pending
        ensures { result ≡ none_pending }
    {
        Pending {
            signals: [false; 32],
            any: false,
        }
    }

    /// Adds the signal.
    pub fn raise(&mut self, signal: u8)
        requires first { 1 ≤ signal }
        requires last { signal ≤ most_signal }
        ensures value { self.new ≡ with_pending self.old signal true }
        ensures signal { is_pending_in self.new signal ≡ true }
        ensures others { (q : ℕ) → q ≢ signal → is_pending_in self.new q ≡ is_pending_in self.old q }
    {
        self.signals[signal as usize] = true;
        self.any = true;
    }

    /// Removes the signal.
    pub fn clear(&mut self, signal: u8)
        requires first { 1 ≤ signal }
        requires last { signal ≤ most_signal }
        ensures value { self.new ≡ with_pending self.old signal false }
        ensures signal { is_pending_in self.new signal ≡ false }
        ensures others { (q : ℕ) → q ≢ signal → is_pending_in self.new q ≡ is_pending_in self.old q }
    {
        self.signals[signal as usize] = false;
        self.any = has_any(&self.signals);
    }

    /// Whether the signal is in the set.
    pub fn has(&self, signal: u8) -> bool
        requires first { 1 ≤ signal }
        requires last { signal ≤ most_signal }
        ensures { result ≡ is_pending_in self.now signal }
    {
        self.signals[signal as usize]
    }

    /// Whether no signal is in the set.
    pub fn is_empty(&self) -> bool
        ensures { IsTrue result ↔ ((signal : ℕ) → is_pending_in self.now signal ≡ false) }
    {
        !self.any
    }
}

// Whether any of the flags is set.
fn has_any(flags: &[bool]) -> bool
    ensures { result ≡ any_pending flags.now }
{
    flags.iter().any(|is| *is)
}
