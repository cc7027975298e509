// Which function handles each signal.
ghost use Rattle.std.specs.Prelude.{◌≡◌, ◌≢◌, ℕ, ◌<◌, ◌≤◌, None};
ghost use Rattle.guest_signals.specs.Signals.{handler_of, most_signal, no_handlers, with_handler};

use std::marker::Model;

/// The handlers of the signals 1 to 31: for each one a function, by its number, or none.
#[derive(Clone, Copy)]
pub struct Handlers {
    functions: [Option<u32>; 32],
}

impl Model for Handlers {
    ghost use Rattle.std.specs.Prelude.{◌≡◌, ℕ, List, Option, None};
    ghost use Rattle.guest_signals.specs.Signals.{handler_of};

    ghost Value = { List (Option ℕ) };

    ghost view = { λ handlers. handlers.functions };

    ghost invariant = { λ handlers. handler_of handlers.functions 0 ≡ None };

    ghost inverse = { λ functions. record { functions = functions } };
}

impl Handlers {
    /// No handlers.
    pub fn new() -> Handlers
        ensures { result ≡ no_handlers }
    {
        Handlers {
            functions: [None; 32],
        }
    }

    /// Sets the signal's handler, or removes it.
    pub fn set(&mut self, signal: u8, f: Option<u32>)
        requires first { 1 ≤ signal }
        requires last { signal ≤ most_signal }
        ensures value { self.new ≡ with_handler self.old signal f }
        ensures handler { handler_of self.new signal ≡ f }
        ensures others { (q : ℕ) → q ≢ signal → handler_of self.new q ≡ handler_of self.old q }
    {
        self.functions[signal as usize] = f;
    }

    /// The signal's handler. Any other number has none.
    pub fn get(&self, signal: u8) -> Option<u32>
        ensures value { result ≡ handler_of self.now signal }
        ensures zero { signal ≡ 0 → result ≡ None }
        ensures past { 32 ≤ signal → result ≡ None }
    {
        self.functions.get(usize::from(signal)).copied().flatten()
    }
}
