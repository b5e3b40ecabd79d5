//! What can be asked for.
ghost use Rattle.std.specs.Prelude.{◌≡◌};
ghost use Rattle.exb_cli.specs.Kinds.{eager_with};

/// How a run is asked for.
#[derive(Clone, Copy)]
pub struct Options {
    /// With a trace.
    pub trace: bool,
    /// With counters.
    pub counters: bool,
    /// In an order drawn from this seed, where there is one.
    pub seed: Option<u64>,
}

impl Options {
    /// Eager, without a trace, and with counters where they are wanted.
    pub fn eager(counters: bool) -> Options
        ensures { result ≡ eager_with counters }
    {
        Options {
            trace: false,
            counters,
            seed: None,
        }
    }
}

/// What the words ask for.
#[derive(Clone, Copy)]
pub enum Invocation<'a> {
    /// To play the captures of a topology.
    Run { topology: &'a str, options: Options },
    /// To say what numbers a topology needs.
    Check { topology: &'a str },
    /// To play the input that is made from a number.
    Make { number: u64 },
    /// To judge the trace that a run of a topology wrote.
    Audit { topology: &'a str },
    /// To play the captures of all bridges of a net, with counters or without.
    Net { file: &'a str, counters: bool },
}
