//! What the verdicts of a checker of traces tell: each says yes exactly where its rule holds.
ghost use Rattle.exb_trace_spec.specs.CheckerLaws.{Rule1IsDecided, Rule2IsDecided, TimeIsDecided, Rule3IsDecided, Rule4IsDecided, Rule5IsDecided, AllAreJudged};

/// The machine of rule 1 says yes exactly where the trace has the journal's lines, in order, and
/// each line names a place that is there.
pub fn rule_1_is_decided()
    ensures { Rule1IsDecided }
{}

/// That of rule 2 does exactly where each extender does what the machine of an extender does.
pub fn rule_2_is_decided()
    ensures { Rule2IsDecided }
{}

/// A control word comes in time exactly where it was sent before, with all data words before it
/// come in: this is told by two counts.
pub fn time_is_decided()
    ensures { TimeIsDecided }
{}

/// That of rule 3 does exactly where the words of each direction of each link come in order, and
/// none is still to come at the end.
pub fn rule_3_is_decided()
    ensures { Rule3IsDecided }
{}

/// That of rule 4 does exactly where the frames at external ports are those of the captures and of
/// the output files.
pub fn rule_4_is_decided()
    ensures { Rule4IsDecided }
{}

/// That of rule 5 does exactly where each frame that comes to the bridge is told of, and the bridge
/// sends data for no others.
pub fn rule_5_is_decided()
    ensures { Rule5IsDecided }
{}

/// All five together say none exactly where the trace is legal, and else the lowest rule that
/// doesn't hold.
pub fn all_are_judged()
    ensures { AllAreJudged }
{}
