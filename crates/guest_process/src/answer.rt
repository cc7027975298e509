// How a thread goes on after the answer to its call.
ghost use Rattle.std.specs.Prelude.{◌≡◌, ℕ, IfOk, IfSome, None, Some, is_some, true};
ghost use Rattle.wasm_step.specs.Strand.{answered_strand, IsHandler};
ghost use Rattle.guest_process.specs.GoesOn.{handler as handler_of, with_handler_frame};
ghost use Rattle.guest_process.specs.Answers.{is_due};
ghost use Rattle.guest_process.specs.Kinds.{reply_value};
ghost use Rattle.guest_process.specs.Sound.{StandsAtKind};

use crate::waiting::Waiting;
use guest_signals::Handlers;
use lib_calls::Kind;
use std::alloc::AllocError;
use wasm_step::Strand;
use wasm_types::Value;

/// What a reply puts on the operand stack.
pub(crate) fn reply_value(kind: Kind, reply: u64) -> Option<Value>
    ensures { result ≡ reply_value kind reply }
{
    match kind.signature().result {
        0 => None,
        32 => Some(Value::I32((reply % 0x1_0000_0000) as u32)),
        _ => Some(Value::I64(reply)),
    }
}

/// Whether a thread wakes at this time that sleeps until that one.
pub fn is_due(until: u64, time: u64) -> bool
    ensures { result ≡ is_due until time }
{
    until.cast_signed() <= time.cast_signed()
}

/// The strand of a thread whose call was answered.
#[tactic(auto, using(crate::proofs::AnsweredCalls::is_answer))]
pub(crate) fn answered(waiting: Waiting<'_>, reply: u64) -> Result<Strand<'_>, AllocError>
    requires { StandsAtKind waiting.strand.«module» waiting waiting.call.kind }
    ensures { IfOk result (λ s. s ≡ answered_strand waiting.entry.strand (reply_value waiting.entry.call.kind reply)) }
{
    match waiting.call.kind {
        Kind::Begin => Ok(waiting.strand),
        kind => waiting.strand.answer(reply_value(kind, reply)),
    }
}

/// The handler of a signal. 0 is no signal.
pub(crate) fn handler(handlers: &Handlers, signal: u8) -> Option<u32>
    ensures { result ≡ handler_of handlers.now signal }
{
    if signal == 0 {
        None
    } else {
        handlers.get(signal)
    }
}

/// Whether a strand keeps to its limits with the frame of a handler on top, if there is one.
pub(crate) fn has_room(strand: &Strand<'_>, func: Option<u32>) -> bool
    requires { IfSome func (IsHandler strand.now.«module») }
    ensures { (signal : ℕ) → result ≡ is_some (with_handler_frame strand.now.«module» strand.now signal func) }
{
    match func {
        Some(func) => strand.has_handler_room(func),
        None => true,
    }
}

/// The strand with the frame of a handler on top, if there is one.
pub(crate) fn entered<'m>(
    strand: Strand<'m>,
    signal: u8,
    func: Option<u32>,
) -> Result<Strand<'m>, AllocError>
    requires runs { strand.call ≡ None }
    requires handler { IfSome func (IsHandler strand.«module») }
    requires room { is_some (with_handler_frame strand.«module» strand signal func) ≡ true }
    ensures thread { IfOk result (λ s. with_handler_frame strand.entry.«module» strand.entry signal func ≡ Some s.thread) }
    ensures same_module { IfOk result (λ s. s.«module» ≡ strand.entry.«module») }
    ensures call { IfOk result (λ s. s.call ≡ None) }
{
    match func {
        Some(func) => strand.push_handler(func, u32::from(signal)),
        None => Ok(strand),
    }
}
