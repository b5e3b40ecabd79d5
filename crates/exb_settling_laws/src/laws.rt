//! What is true of rounds and of settling.
ghost use Rattle.exb_settling_laws.specs.SettlingLaws.{SetupsHaveFacts, SettlingEnds, RoundsSpend, RoundsPlanNothing, RoundsDeliver, WindowsGetOn, OrderKeepsFacts, TurnsAreOrderly, SetupsBeginGoing};
ghost use Rattle.exb_settling_laws.specs.Rounds.{AgeingStays, RoundsAreWhole};

use exb_frame::laws::tag_round_trip;

/// The world of each valid setup has the facts that the other laws ask of each world that rounds
/// reach.
pub fn setups_have_facts()
    ensures { SetupsHaveFacts }
{}

/// Whatever the verdicts are, of which at most b aren't Pass, settling ends settled within 64
/// rounds for each of them, for each exchange that is planned, and for one more.
pub fn settling_ends()
    ensures { SettlingEnds }
{
    tag_round_trip();
}

/// A round spends a verdict that isn't Pass, or each word passes in it.
pub fn rounds_spend()
    ensures { RoundsSpend }
{}

/// No round makes the number of planned exchanges greater.
pub fn rounds_plan_nothing()
    ensures { RoundsPlanNothing }
{}

/// In a round in which each word passes no word is left on the way up before words go down, and
/// none on the way down before the beat.
pub fn rounds_deliver()
    ensures { RoundsDeliver }
{
    tag_round_trip();
}

/// Within 64 rounds in which each word passes a planned exchange is done, or the world is settled.
pub fn windows_get_on()
    ensures { WindowsGetOn }
{
    tag_round_trip();
}

/// The world of each valid setup begins going: its sessions stand, both ends of each are as they
/// should be, and control words stand on the way of their extenders.
pub fn setups_begin_going()
    ensures { SetupsBeginGoing }
{}

/// Where a world stays orderly, whatever words are delivered, lost or repeated and whatever beats
/// pass, it keeps the facts that the laws on settling ask.
pub fn order_keeps_facts()
    ensures { OrderKeepsFacts }
{
    tag_round_trip();
}

/// A sound world in which extenders are asked in their turn is orderly: an extender that wasn't
/// heard was asked nothing, its first request is Open, and whoever is waited for is reached.
pub fn turns_are_orderly()
    ensures { TurnsAreOrderly }
{}

/// No step changes the ageing time.
pub fn ageing_stays()
    ensures { AgeingStays }
{}

/// A round is made of moves and counts one beat, unless the number of beats is the last one. It
/// goes through each direction: of the words that stood there control words alone are left, and
/// behind them stands what was sent. Those and the words that were lost are at most as many as the
/// verdicts other than Pass that it spent.
pub fn rounds_are_whole()
    ensures { RoundsAreWhole }
{}
