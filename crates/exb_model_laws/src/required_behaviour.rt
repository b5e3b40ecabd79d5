//! Laws of the one bridge. Each speaks of every history and of every frame that is relayed after
//! it.
ghost use Rattle.exb_model_laws.specs.FrameReach.{FloodReachesAll, LearnedIsReached, StaticReachesItsPorts};
ghost use Rattle.exb_model_laws.specs.EntryLifetime.{SourceIsLearned, LearnedStays};
ghost use Rattle.exb_model_laws.specs.TagPreservation.{TagKeepsPriority};

/// A frame to a group address, or to an individual address that is not learned, without a static
/// entry in its VLAN, leaves once by every port that may get it: each present member of the VLAN
/// but the port by which it came, and not from an isolated port to another.
pub fn flood_reaches_all()
    ensures { FloodReachesAll }
{}

/// A frame to an individual address that is learned, without a static entry in its VLAN, leaves
/// once by the learned port where that may get it.
pub fn learned_is_reached()
    ensures { LearnedIsReached }
{}

/// A frame to an address with a static entry in its VLAN leaves once by each port of the entry that
/// may get it, and by no other.
pub fn static_reaches_its_ports()
    ensures { StaticReachesItsPorts }
{}

/// The individual source of a frame that passes is learned at once, at the port by which it came.
pub fn source_is_learned()
    ensures { SourceIsLearned }
{}

/// What was learned of a frame stays so while less than the ageing time passes, its port isn't
/// taken down and no frame from the same address passes in the VLAN at another port.
pub fn learned_stays()
    ensures { LearnedStays }
{}

/// A tagged frame, or one with a priority tag, that leaves tagged keeps its priority and its drop
/// eligibility, and has the VLAN in which it passed.
pub fn tag_keeps_priority()
    ensures { TagKeepsPriority }
{}
