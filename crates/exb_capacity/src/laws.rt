//! What holds of what a setup needs. Each law is a function that does nothing and ensures it.
ghost use Rattle.exb_capacity.specs.Laws.{NothingWithoutExtenders, IsTheGreatest};

/// A bridge without extenders needs no channel and no set.
pub fn nothing_without_extenders()
    ensures { NothingWithoutExtenders }
{}

/// No cascade port of the bridge needs more than what is said, and one needs just that, or none
/// needs anything.
pub fn is_the_greatest()
    ensures { IsTheGreatest }
{}
