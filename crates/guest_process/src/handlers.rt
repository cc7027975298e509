// How calls set the handlers of signals.
ghost use Rattle.std.specs.Prelude.{◌≡◌, ℕ, IfSome, IsTrue};
ghost use Rattle.guest_signals.specs.Signals.{is_signal};
ghost use Rattle.lib_calls.specs.Answer.{Answer};
ghost use Rattle.guest_process.specs.Answers.{after_need, effects_of_answer, handled, handler_given};
ghost use Rattle.guest_process.specs.Meanings.{plain_need};
ghost use Rattle.guest_process.specs.inside.Meanings.{state_of};

use crate::body::Body;
use crate::need::Need;
use crate::threads::narrow;
use crate::waiting::Waiting;
use guest_signals::{Handlers, MOST_SIGNAL};
use lib_calls::{Kind, REFUSED};

// The number at which no function handles a signal.
const REMOVAL: u32 = 0xFFFF_FFFF;

impl<'m> Body<'m> {
    /// The reply to a call that gives the signal the handler of this number.
    pub(crate) fn handled(&self, signal: u32, number: u32) -> Need
        ensures { result ≡ plain_need (handled (state_of self.now) signal number) }
    {
        match self.handler_given(signal, number) {
            Some(_) => Need::Fixed(0),
            None => Need::Fixed(REFUSED),
        }
    }

    /// The handlers after such a call.
    pub(crate) fn handlers_with(&self, signal: u32, number: u32) -> Handlers
        ensures { result ≡ (after_need (handled (state_of self.now) signal number) (state_of self.now)).handlers }
    {
        let mut handlers = self.handlers;
        if let Some(handler) = self.handler_given(signal, number) {
            handlers.set(signal as u8, handler);
        }
        handlers
    }

    /// The handlers once a pending call was answered, however it is.
    #[tactic(auto, using(crate::proofs::HandlerCalls::same_handlers, crate::proofs::HandlerCalls::given_handlers))]
    pub(crate) fn handlers_after(&self, waiting: &Waiting<'m>) -> Handlers
        ensures { (t : ℕ) (a : Answer) → result ≡ (effects_of_answer waiting.now.call.kind (state_of self.now) t waiting.now.call a).handlers }
    {
        match waiting.call.kind {
            Kind::OnSignal => self.handlers_with(narrow(waiting.call.a0), narrow(waiting.call.a1)),
            _ => self.handlers,
        }
    }

    /// Gives the signal the handler of this number, where that may be.
    #[tactic(auto, using(crate::proofs::HandlerCalls::set_handlers))]
    pub(crate) fn set_handler(&mut self, signal: u32, number: u32)
        ensures state { state_of self.new ≡ after_need (handled (state_of self.old) signal number) (state_of self.old) }
        ensures same_module { self.new.«module» ≡ self.old.«module» }
        ensures store { self.new.store ≡ self.old.store }
    {
        self.handlers = self.handlers_with(signal, number);
    }

    // The handler, or none, that a call gives a signal with this number, where there is that signal and the number names one: no
    // handler, or the function at that place of the table.
    fn handler_given(&self, signal: u32, number: u32) -> Option<Option<u32>>
        ensures given { result ≡ handler_given (state_of self.now) signal number }
        ensures signal { IfSome result (λ _. IsTrue (is_signal signal)) }
    {
        if signal == 0 || signal > u32::from(MOST_SIGNAL) {
            return None;
        }
        if number == REMOVAL {
            return Some(None);
        }
        match self.store.handler_at(number) {
            Some(func) => Some(Some(func)),
            None => None,
        }
    }
}
