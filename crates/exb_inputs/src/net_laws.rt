//! What holds of every net, whatever reads it. Each law is a function that does nothing and ensures
//! it.
ghost use Rattle.exb_inputs.specs.NetLaws.{AreInputsOf, HaveOneCause};

/// A net is refused for one cause or for none, and then has one first fault of a capture or none.
pub fn nets_have_one_cause()
    ensures { HaveOneCause }
{}

/// What a bridge is given is of its topology.
pub fn inputs_are_of_members()
    ensures { AreInputsOf }
{}
