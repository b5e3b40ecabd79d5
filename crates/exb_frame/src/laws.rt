//! Laws of the E-TAG.
ghost use Rattle.exb_frame.specs.TagValues.{TagRoundTrip};

/// An E-TAG that is put into a frame of at least 12 bytes is read again as its fields, and taken
/// out it leaves the frame as it was.
pub fn tag_round_trip()
    ensures { TagRoundTrip }
{}
