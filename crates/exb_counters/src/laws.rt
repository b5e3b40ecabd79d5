//! What the counts of all ports say together. A law is a function that does nothing and ensures it.
ghost use Rattle.exb_counters.specs.Laws.{CountsAreTheSummary, CountsOfInputsAreTheSummary};

/// Over a history whose arrivals came in at external ports, the counts of all external ports
/// together are those of the summary: arrivals, relayed and ignored, and frames that left.
pub fn counts_are_the_summary()
    ensures { CountsAreTheSummary }
{}

/// So over every history that an input allows, eager or drawn, where only external ports have
/// records.
pub fn counts_of_inputs_are_the_summary()
    ensures { CountsOfInputsAreTheSummary }
{}
