//! Laws of what the bridge sends for a frame.
ghost use Rattle.exb_numbers.specs.Spaces.{Spaces};
ghost use Rattle.exb_model.specs.Numbers.{IsNumbering};
ghost use Rattle.exb_relay.specs.Spaces.{numbers_of};
ghost use Rattle.exb_relay.specs.Laws.{ChoiceIsTheBridges, LocalSendsAreTargets, LearnedSendIsTarget, SendsAreWords, AtMostTwo, SendsLeaveAsFlat};

use exb_frame::laws::tag_round_trip;
use exb_numbers::laws::{channels_are_apart, groups_are_apart};

/// A port is chosen exactly where the one VLAN bridge chooses it.
pub fn choice_is_the_bridges()
    ensures { ChoiceIsTheBridges }
{}

/// The sends without an E-TAG are exactly the local targets, each once and in its kind.
pub fn local_sends_are_targets()
    ensures { LocalSendsAreTargets }
{}

/// For a learned port of an extender there is one word, with that port's channel at its trunk,
/// where the port is a target; else there is none.
pub fn learned_send_is_target()
    ensures { LearnedSendIsTarget }
{}

/// Each word goes down at a cascade port, fits an E-TAG, and has the group of a set of the
/// configuration or the channel of a present port that isn't the source. A send without an E-TAG is
/// at an external port.
pub fn sends_are_words()
    ensures { SendsAreWords }
{}

/// There are at most two sends at each port of the bridge.
pub fn at_most_two()
    ensures { AtMostTwo }
{}

/// Where the tables of the extenders carry each group's word to its set and each channel's word to
/// its port, the sends of a frame make leave at each external port exactly what the one VLAN bridge
/// sends there.
pub fn sends_leave_as_flat()
    ensures { SendsLeaveAsFlat }
{
    tag_round_trip();
}

/// The numbers that spaces give are channels and groups in their ranges, and no two ports have one
/// channel.
pub fn spaces_number()
    ensures { (s : Spaces) → IsNumbering (numbers_of s) }
{
    channels_are_apart();
    groups_are_apart();
}
