//! What is true of runs of several worlds.
ghost use Rattle.exb_net_laws.specs.CountersGoOn.{CountsGoOn};
ghost use Rattle.exb_net_laws.specs.Deliveries.{BridgesHandle, DeliveriesEndSoon, OpenedNetsRun, SecondsPass};
ghost use Rattle.exb_net_laws.specs.NetRunLaws.{NetsArePlayed, NetsArePlayedEagerly};
ghost use Rattle.exb_net_laws.specs.EventCounts.{EventsAddOne, OpenedNetsAreNew};

use exb_control_spec::laws::steps_tell;
use exb_frame::laws::tag_round_trip;
use exb_net_spec::laws::queues_end_soon;
use exb_relay::laws::{sends_are_words, sends_leave_as_flat};
use exb_world_laws::laws::runs::{runs_are_few, runs_are_under_way};
use exb_world_spec::laws::steps_stay_written;

/// A run of several worlds that opens each, and then gives each event to its bridge and each frame
/// that leaves a wired port to the bridge at its far end, in the order of their queue until none is
/// left, tells each the history that the net gives it. What has left each external port is what the
/// one bridge sends there over it, and of each Relay it is told whether its frame passed.
pub fn nets_are_played()
    ensures { NetsArePlayed }
{
    tag_round_trip();
    sends_are_words();
    sends_leave_as_flat();
    steps_tell();
    steps_stay_written();
}

/// So where it is all that comes to the net, in its order, these are the histories of the eager run
/// of the net.
pub fn nets_are_played_eagerly()
    ensures { NetsArePlayedEagerly }
{
    tag_round_trip();
    sends_are_words();
    sends_leave_as_flat();
    steps_tell();
    steps_stay_written();
}

/// The counts of a port after more events are those before them and what the events add; which
/// Relays pass nowhere is what is said of each.
pub fn counts_go_on()
    ensures { CountsGoOn }
{}

/// Worlds that are opened run: each came where it is by steps that may be made, and no record of
/// any port has come.
pub fn opened_nets_run()
    ensures { OpenedNetsRun }
{
    tag_round_trip();
    sends_are_words();
    sends_leave_as_flat();
    steps_tell();
    steps_stay_written();
}

/// Worlds that run do so after seconds that may pass, and no index changes.
pub fn seconds_pass()
    ensures { SecondsPass }
{
    tag_round_trip();
    sends_are_words();
    sends_leave_as_flat();
    steps_tell();
    steps_stay_written();
}

/// Worlds that run do so after one of them was given something; and each frame that leaves for it
/// may arrive at the far end of its wire. For a command none does.
pub fn bridges_handle()
    ensures { BridgesHandle }
{
    tag_round_trip();
    sends_are_words();
    sends_leave_as_flat();
    steps_tell();
    steps_stay_written();
}

/// After a frame arrived no more deliveries follow than there are wires, and at each port at most
/// one: so far as indices go, all of them may be made.
pub fn deliveries_end_soon()
    ensures { DeliveriesEndSoon }
{
    queues_end_soon();
    tag_round_trip();
    sends_are_words();
    sends_leave_as_flat();
    steps_tell();
    steps_stay_written();
}

/// One event adds to each bridge at most one arrival, and at each port at most one frame that
/// leaves; the clocks go on by its seconds.
pub fn events_add_one()
    ensures { EventsAddOne }
{
    queues_end_soon();
    tag_round_trip();
    sends_are_words();
    sends_leave_as_flat();
    steps_tell();
    steps_stay_written();
}

/// After the opening no second has passed, nothing was given, and nothing has left.
pub fn opened_nets_are_new()
    ensures { OpenedNetsAreNew }
{
    runs_are_few();
    runs_are_under_way();
}
