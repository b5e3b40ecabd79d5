//! What is true of every step and every run of the world beside its flight.
ghost use Rattle.exb_flight.specs.Simulation.{TicksFly, MarksFly, LossesFly, OrdersFly, BeatsFly, ControlsFly, ArrivalsFly, AscentsFly, DescentsFly};
ghost use Rattle.exb_flight.specs.Promises.{StoodPromises, BeginsStood, RunsStand, WorldsPromise};

use exb_frame::laws::tag_round_trip;
use exb_relay::laws::{sends_are_words, sends_leave_as_flat};

/// Seconds that pass are noted.
pub fn ticks_fly()
    ensures { TicksFly }
{}

/// A mark is noted.
pub fn marks_fly()
    ensures { MarksFly }
{}

/// A control word that is lost is no step of the flight.
pub fn losses_fly()
    ensures { LossesFly }
{}

/// A command that is given is a step of the machine of changes, and its request goes out.
pub fn orders_fly()
    ensures { OrdersFly }
{
    tag_round_trip();
}

/// A beat is counted, and what is sent again or announced goes out.
pub fn beats_fly()
    ensures { BeatsFly }
{
    tag_round_trip();
}

/// A control word that is delivered is sent on, executed, taken or acknowledged, with all that
/// follows at once.
pub fn controls_fly()
    ensures { ControlsFly }
{
    tag_round_trip();
}

/// A frame that arrives at the bridge is relayed or ignored there; one at an extender goes up with
/// its E-TAG, or is ignored.
pub fn arrivals_fly()
    ensures { ArrivalsFly }
{
    tag_round_trip();
    sends_are_words();
    sends_leave_as_flat();
}

/// A data word that goes up comes to the next link, or into the bridge, which relays or ignores its
/// frame.
pub fn ascents_fly()
    ensures { AscentsFly }
{
    tag_round_trip();
    sends_are_words();
    sends_leave_as_flat();
}

/// A data word that goes down is sent on at each port of its extender, or leaves there.
pub fn descents_fly()
    ensures { DescentsFly }
{}

/// What stands keeps the promises.
pub fn stood_promises()
    ensures { StoodPromises }
{}

/// The world stands as it begins.
pub fn begins_stood()
    ensures { BeginsStood }
{}

/// The world stands after any steps that may be made.
pub fn runs_stand()
    ensures { RunsStand }
{
    tag_round_trip();
    sends_are_words();
    sends_leave_as_flat();
}

/// The promises hold after any steps from the beginning.
pub fn worlds_promise()
    ensures { WorldsPromise }
{
    tag_round_trip();
    sends_are_words();
    sends_leave_as_flat();
}
