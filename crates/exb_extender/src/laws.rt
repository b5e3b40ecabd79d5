//! Laws of the machine, and of the tables of all extenders.
ghost use Rattle.exb_extender.specs.Laws.{EmitsOfAll, CodesExactly, ManyCodes, StaysExtender, RestsThroughBeats, SendsControl};

/// What an extender sends at a port of a frame from upstream is what the tables of all extenders
/// say of that port.
pub fn emits_of_all()
    ensures { EmitsOfAll }
{}

/// Creating, deleting, registering and unregistering are answered with code 1, 2 or 3 exactly where
/// the port isn't there or a port of the mask has no channel, where the channel or E-CID is out of
/// its range, and where the port has a channel already or the E-CID a pair.
pub fn codes_exactly()
    ensures { CodesExactly }
{}

/// Registering many rows has another code than 0 exactly where a first row has it.
pub fn many_codes()
    ensures { ManyCodes }
{}

/// What holds of an extender at power-on holds after each reaction, and its number and its ports
/// stay.
pub fn stays_extender()
    ensures { StaysExtender }
{}

/// Of an extender that was opened and sends nothing a beat changes the count alone; nothing is
/// sent, and it goes on resting.
pub fn rests_through_beats()
    ensures { RestsThroughBeats }
{}

/// What an extender sends of its own, announcements, acknowledgements and answers, are control
/// frames without an E-TAG that go up, of at most 1,100 bytes.
pub fn sends_control()
    ensures { SendsControl }
{}
