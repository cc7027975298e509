// What holds of each recording, as calls that do nothing.
ghost use Rattle.group_record.specs.Laws.{Agreement, Beginning, CutAgreement, Delivery, TakesDrawn, TakesWaiting};
ghost use Rattle.group_record.specs.Idle.{IdleLeftOut};
ghost use Rattle.group_record.specs.Live.{LiveStates, LiveSummary};
ghost use Rattle.group_record.specs.Standing.{Standing};

/// A group of a schedule and valid modules, whose processes have begun, is one that the two laws are about.
pub fn beginning()
    ensures { Beginning }
{}

/// So a recording stands at each moment: each step is one that could follow those before it, the world around the
/// processes is what is counted out of the acts, and each process is in the state that the replay of its entries makes,
/// which is in its ranges.
pub fn standing()
    ensures { Standing }
{
    guest_process::laws::one_event();
    guest_process::laws::states_fit();
    guest_process::laws::rises();
    guest_process::laws::counting();
}

/// At each moment of a recording each log tells the events of its process: they are its entries, each is
/// accepted where it comes, and the replay after each n of them is in the recorded state. The same holds of a
/// log after which the entry of the next event was written in part, and that part is what its reader leaves.
pub fn agreement()
    ensures whole { Agreement }
    ensures cut { CutAgreement }
{
    call_log::laws::exact_logs();
    guest_process::laws::one_event();
    guest_process::laws::states_fit();
    guest_process::laws::rises();
    guest_process::laws::counting();
}

/// Each datagram that an event took came first in the mailbox. It came from outside, or is one that a
/// process had sent to the taker before an item delivered it. Then the sender's log told the send by then,
/// and the event's entry names it, unless the send's clock is past those that a tag can bear, and tells a
/// first part of what was sent.
pub fn delivery()
    ensures { Delivery }
{
    group_world::laws::by_counting();
    guest_process::laws::one_event();
    guest_process::laws::states_fit();
    guest_process::laws::rises();
    guest_process::laws::counting();
}

/// With good arguments each recv and try_recv takes the datagram that waits first, and each random the
/// first bytes of the pool. So no datagram and no random byte is taken twice.
pub fn taking()
    ensures datagrams { TakesWaiting }
    ensures bytes { TakesDrawn }
{
    guest_process::laws::one_event();
    guest_process::laws::states_fit();
    guest_process::laws::rises();
    guest_process::laws::counting();
}

/// A group that goes on try by try has the processes of the run that it is at, in their states, and these tell what is
/// said of each process.
pub fn live_groups()
    ensures states { LiveStates }
    ensures summary { LiveSummary }
{}

/// Tries and items that are idle where they come may be left out of a schedule: the run makes the same steps, and a log is
/// full in both or in neither.
pub fn idle_left_out()
    ensures { IdleLeftOut }
{}
