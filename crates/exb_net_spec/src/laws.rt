//! What is true of nets.
ghost use Rattle.exb_net_spec.specs.QueueTermination.{QueuesEnd, QueuesEndSoon, NetsHaveHistories};
ghost use Rattle.exb_net_spec.specs.BridgeHistories.{CrossingsArrive, HistoriesHoldAll};
ghost use Rattle.exb_net_spec.specs.NetLaws.{HistoriesAreOne, HistoriesGoOn, DuesAreInOrder, NothingGoesBack, OneIsEager};

/// A net has no more than one history by bridge.
pub fn histories_are_one()
    ensures { HistoriesAreOne }
{}

/// The histories of a front of what comes are fronts of those of more of it.
pub fn histories_go_on()
    ensures { HistoriesGoOn }
{}

/// All that comes does so to bridges of the net, and at each of them the commands come in their
/// order.
pub fn dues_are_in_order()
    ensures { DuesAreInOrder }
{}

/// Nothing is sent back at the port of an arrival.
pub fn nothing_goes_back()
    ensures { NothingGoesBack }
{}

/// After some deliveries nothing is left of what one event of a valid net sent, since its wires
/// have no loop.
pub fn queues_end()
    ensures { QueuesEnd }
{}

/// That takes no more deliveries than there are wires, and meanwhile each bridge has one arrival at
/// most: one wire leads down to each bridge, so it is reached once.
pub fn queues_end_soon()
    ensures { QueuesEndSoon }
{}

/// So a valid net has a history of each of its bridges.
pub fn nets_have_histories()
    ensures { NetsHaveHistories }
{}

/// What arrives at a wired port is, in order, what leaves at the far end of its wire.
pub fn crossings_arrive()
    ensures { CrossingsArrive }
{}

/// The history of each bridge holds its commands, each once and in order, and of each port what
/// arrives there, each once and by rising index; which of them are refused and relayed is by the
/// rules of legal histories.
pub fn histories_hold_all()
    ensures { HistoriesHoldAll }
{}

/// A net of one bridge has the history of the eager run.
pub fn one_is_eager()
    ensures { OneIsEager }
{}
