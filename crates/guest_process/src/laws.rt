// The laws over one event, as calls that do nothing.
ghost use Rattle.guest_process.specs.Crews.{LockKept, OnlySpawnAdds, OtherThreadsStay};
ghost use Rattle.guest_process.specs.EventCount.{BeginsFresh, CountsEvents};
ghost use Rattle.guest_process.specs.Marks.{UnmarkedStays};
ghost use Rattle.guest_process.specs.Numbers.{LegalNumbers, LegalTraffic};
ghost use Rattle.guest_process.specs.OneEvent.{IsKeptByEvents, IsKeptSound, IsStarted, LowestFirst, OneEvent, Possible, Rises, SomeWorldAllows};

/// An event that the world let a process have has the shape of its kind and is legal where it comes,
/// and the state after it is the one that its entry alone tells.
pub fn one_event()
    ensures { OneEvent }
{
    lamport_tag::laws::cut_short();
    lamport_tag::laws::tags_read_back();
}

/// An event that the world let a process have delivers the lowest of the signals that are pending and may be delivered there. It
/// delivers none only where none may be.
pub fn lowest_first()
    ensures { LowestFirst }
{
    lamport_tag::laws::cut_short();
    lamport_tag::laws::tags_read_back();
}

/// A legal entry is the event of a try of its thread in each world that has what its answer brings, whatever
/// else waits in that world. For each entry with the shape of its kind there is such a world, so that no answer is
/// legal that no world gives.
pub fn possible()
    ensures event { Possible }
    ensures world { SomeWorldAllows }
{
    lamport_tag::laws::tags_read_back();
}

/// What a legal entry says is within the limits of its process, and within those of the datagrams of its group.
pub fn legal_numbers()
    ensures { LegalNumbers }
{}

/// A legal entry tells that a datagram was sent or taken, or that random bytes were drawn, exactly where its call has good
/// arguments: what is read off the reply alone, without the memory, is so.
pub fn legal_traffic()
    ensures { LegalTraffic }
{}

/// With a legal event the clock of a process rises, also above that of the datagram that the event took,
/// and the event is counted. The process keeps its number, its group and its module.
pub fn rises()
    ensures { Rises }
{
    wasm_step::laws::never_stuck();
}

/// A legal event of one thread leaves each other thread that was made as it was. Only one of `spawn` makes
/// a thread, one, which is live at `begin`.
pub fn others_stay()
    ensures stay { OtherThreadsStay }
    ensures made { OnlySpawnAdds }
{
    wasm_step::laws::never_stuck();
}

/// A lock has one holder from the event that takes it, when it was free, to that by which this same
/// thread gives it back, also after the holder's end. No other event changes its holder.
pub fn lock_kept()
    ensures { LockKept }
{
    wasm_step::laws::never_stuck();
}

/// How a process of a valid module begins is in the ranges on which the law over one event rests, and
/// its threads and handlers are the module's. A legal event keeps both.
pub fn states_fit()
    ensures started { IsStarted }
    ensures ranges { IsKeptByEvents }
    ensures sound { IsKeptSound }
{
    wasm_step::laws::never_stuck();
    guest_memory::laws::stamps_no_later();
    wasm_step::laws::marked();
}

/// A page, a global and the memory's size that a legal event does not mark are as they were before it, and none
/// is gone.
pub fn unmarked_stays()
    ensures { UnmarkedStays }
{
    wasm_step::laws::never_stuck();
    wasm_step::laws::marked();
}

/// A process begins with no event, with its number and in its group, and each legal entry is the entry
/// of one event more.
pub fn counting()
    ensures begun { BeginsFresh }
    ensures counted { CountsEvents }
{}
