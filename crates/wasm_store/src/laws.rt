// The laws of marks, as a call that does nothing.
ghost use Rattle.wasm_store.specs.Marks.{MarkedByGrowth, MarkedTransitive, MarkedReflexive, SetMarks, WritesMark};

/// What sets a global, makes the memory larger or writes to it marks nothing later than the event that does so,
/// and leaves what that event has not marked as it was; also one after the other.
pub fn marked()
    ensures set { SetMarks }
    ensures grown { MarkedByGrowth }
    ensures written { WritesMark }
    ensures nothing { MarkedReflexive }
    ensures follow { MarkedTransitive }
{
    guest_memory::laws::stamps_no_later();
    guest_memory::laws::stamps_tell();
}
