//! Laws of the one bridge. Each speaks of every history and of every frame that is relayed after
//! it.
ghost use Rattle.exb_model_laws.specs.Laws.{AgeingZeroLearnsNothing, GroupSourceTeachesNothing, IsolatedPortsAreApart, LearnedGoesThere, LeavesByMembers, NeverGoesBack, NoGroupIsLearned, RefusedChangesNothing};

/// A frame never leaves by the port by which it came.
pub fn never_goes_back()
    ensures { NeverGoesBack }
{}

/// At each port a relayed frame leaves once or not at all, and only where the port is a present
/// member of the VLAN in which the frame passed.
pub fn leaves_by_members()
    ensures { LeavesByMembers }
{}

/// Two isolated ports never exchange a frame.
pub fn isolated_ports_are_apart()
    ensures { IsolatedPortsAreApart }
{}

/// A frame to an individual address that is learned, and has no static entry in its VLAN, leaves by
/// the learned port or not at all.
pub fn learned_goes_there()
    ensures { LearnedGoesThere }
{}

/// A group address is never learned.
pub fn no_group_is_learned()
    ensures { NoGroupIsLearned }
{}

/// A frame from a group address changes nothing of what is learned.
pub fn group_source_teaches_nothing()
    ensures { GroupSourceTeachesNothing }
{}

/// With ageing time 0 nothing is ever learned.
pub fn ageing_zero_learns_nothing()
    ensures { AgeingZeroLearnsNothing }
{}

/// A refused command changes nothing: whatever happens after it, configuration, learned addresses
/// and sent frames are as if it had not been given.
pub fn refused_changes_nothing()
    ensures { RefusedChangesNothing }
{}
