//! Why a file is no capture.
ghost use Rattle.std.specs.Prelude.{◌≡◌};
ghost use Rattle.exb_capture.specs.Formats.{at_place};

/// What is wrong, by the tables of the two formats.
#[derive(Clone, Copy, Debug)]
pub enum Flaw {
    /// It has no magic number of a classic capture.
    NotPcap,
    /// The version is none that is read.
    Version,
    /// The link type is not 1, Ethernet.
    LinkType,
    /// What begins here is cut off.
    Cut,
    /// A length is out of its range, or what it tells of has no room.
    Length,
    /// A time is out of its range.
    Time,
    /// A section's magic number stands in neither byte order.
    Magic,
    /// It is the 257th interface of its section.
    TooMany,
    /// A resolution is no power of ten that is read.
    Resolution,
    /// There is no such interface.
    Interface,
}

/// What is wrong, and the byte at which it is.
#[derive(Clone, Copy, Debug)]
pub struct FormatFault {
    pub flaw: Flaw,
    pub at: u64,
}

impl FormatFault {
    // Apart, so that nothing of a fault is made ready where there is none.
    #[cold]
    #[inline(never)]
    pub(crate) fn new(flaw: Flaw, at: u64) -> FormatFault
        ensures { result ≡ record { flaw = flaw; at = at } }
    {
        FormatFault { flaw, at }
    }

    // The same fault in what begins at this place of the file.
    #[inline]
    pub(crate) fn at_place(self, place: u64) -> FormatFault
        ensures { result ≡ at_place place self }
    {
        let at = place.saturating_add(self.at);
        let flaw = self.flaw;
        FormatFault { flaw, at }
    }
}

// Answers this flaw at this byte where the test holds: a line of the tables of faults.
macro_rules! refuse {
    ($test:expr, $flaw:ident, $at:expr) => {
        if $test {
            return Err(FormatFault::new(Flaw::$flaw, $at));
        }
    };
}

pub(crate) use refuse;
