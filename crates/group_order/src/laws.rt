// The laws of the order and of the sends, as calls that do nothing.
ghost use Rattle.group_order.specs.Order.{AreMergedOrders};
ghost use Rattle.group_order.specs.Sends.{FindsOneMoreSend};

/// Where the clocks of each node's events rise, the order of all of them is the one list that is sorted by
/// clock and then by node, and that has of each node its events, each after the other. Its first event is
/// the first of the node that comes next by the clocks of the nodes' first events, and the order of what
/// is left follows it.
pub fn merges<A>()
    ensures { AreMergedOrders A }
{}

/// With one send more, its receiver is found at its process and clock, and at each other what was found before.
pub fn finds_one_more()
    ensures { FindsOneMoreSend }
{}
