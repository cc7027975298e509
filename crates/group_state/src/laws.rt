// The laws of a group's order and of its states, as calls that do nothing.
ghost use Rattle.group_state.specs.Laws.{Ordered, SendsFirst, Stepwise, UnmetStays};

use lib_calls::Entry;

/// The accepted events of a group's logs have one order by clock and then by node, in which each node's events
/// keep their own. An event that took a datagram with a tag comes after the event that the tag names, if that is
/// there: so the first events of the order, however many, hold the send of each datagram that they take. It holds
/// for any logs, forged tags included.
pub fn ordered()
    ensures order { Ordered }
    ensures sends { SendsFirst }
{
    group_order::laws::merges::<Entry>();
    guest_process::laws::rises();
    guest_process::laws::states_fit();
}

/// At first each node's process stands as its replay does. The event at each position has the fields of its kind and
/// is legal in the state that its node has there, and after it that node alone has another state, which is the next
/// of that event.
pub fn stepwise()
    ensures { Stepwise }
{
    group_order::laws::merges::<Entry>();
    guest_process::laws::rises();
    guest_process::laws::states_fit();
    proc_replay::laws::replays();
    call_log::laws::exact_logs();
}

/// Where the event that comes to a position met nothing of what an expression read just before, the expression has the same value
/// after it and reads the same. So one that is evaluated at the other positions alone is never behind.
pub fn unmet_stays()
    ensures { UnmetStays }
{
    stepwise();
    guest_process::laws::rises();
    guest_process::laws::states_fit();
    guest_process::laws::unmarked_stays();
    watch_expr::laws::reads_tell();
}
