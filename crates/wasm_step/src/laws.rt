// Laws of bursts, as a call that does nothing.
ghost use Rattle.wasm_step.specs.Laws.{KeepsModule, KeepsStamps, NeverSticks, TellsMarks};

pub use wasm_store::laws::marked;

/// No burst of a valid module sticks, each leaves the module as it is, and none marks anything later than
/// the event that writes. What that event has not marked is as it was.
pub fn never_stuck()
    ensures stops { NeverSticks }
    ensures same_module { KeepsModule }
    ensures stamps { KeepsStamps }
    ensures marks { TellsMarks }
{
    wasm_store::laws::marked();
    guest_module::laws::types_agree();
}
