//! Laws of valid setups: what being valid means in words of the extenders, what it excludes, and
//! what it allows.
ghost use Rattle.exb_model_laws.specs.SetupValidity.{ValidInWords, ExternalInWords, NoRingIsValid, BridgeAloneIsValid, StartIsJudged, SideBySideIsValid, StackedIsValid, ChainIsValid};

/// A setup is valid exactly where its numbers are in their ranges; no two extenders have one number
/// or hang on one port; each hangs on a port of the bridge or of another extender that is there,
/// and its way up ends at the bridge; no port of the bridge has more cascade ports below it than
/// E-channels; and the start names external ports alone and makes none present or absent.
pub fn valid_in_words()
    ensures { ValidInWords }
{}

/// The external ports of a valid setup, which alone its start may name, are the ports of bridge and
/// extenders that are there and on which no extender hangs.
pub fn external_in_words()
    ensures { ExternalInWords }
{}

/// No valid setup has extenders that hang on one another in a ring, or one that hangs on a port of
/// its own.
pub fn no_ring_is_valid()
    ensures { NoRingIsValid }
{}

/// A bridge alone is valid exactly where its numbers are in range: 1 to 64 ports, 1 to 4094
/// E-channels, 1 to 12288 groups, and an ageing time of 0 or of 10 to 1,000,000 seconds.
pub fn bridge_alone_is_valid()
    ensures { BridgeAloneIsValid }
{}

/// Where they are, a start that isolates a port is valid exactly where the bridge has that port,
/// and one that makes a port present or absent never is.
pub fn start_is_judged()
    ensures { StartIsJudged }
{}

/// Two extenders side by side on the bridge are valid exactly where all numbers are in range, the
/// bridge has the ports on which they hang, and neither their numbers nor those ports are one.
pub fn side_by_side_is_valid()
    ensures { SideBySideIsValid }
{}

/// Of two extenders, the first on the bridge, the second is valid exactly on the ports of the
/// first: not on a port that isn't there, on an extender that isn't there, or on itself.
pub fn stacked_is_valid()
    ensures { StackedIsValid }
{}

/// A chain of extenders is valid exactly where there are at most 64, and an E-channel for each that
/// hangs on another.
pub fn chain_is_valid()
    ensures { ChainIsValid }
{}
