//! Laws over what frames announce.
ghost use Rattle.std.specs.Prelude.{◌≡◌, ℕ, ◌++◌, List, length, Ok};
ghost use Rattle.exb_lldp.specs.declared.announce.Announce.{Announce};
ghost use Rattle.exb_lldp.specs.Announcements.{announced};
ghost use Rattle.exb_lldp.specs.Encoding.{CanBeAnnounced, spelling};

/// A frame that announces something announces the same with any bytes after its End.
pub fn bytes_after_the_end_are_ignored()
    ensures { (frame : List ℕ) (more : List ℕ) (a : Announce) → announced frame ≡ Ok a
        → announced (frame ++ more) ≡ Ok a }
{}

/// An announcement that is written is read again as the same. An address has six bytes.
pub fn written_is_read()
    ensures { (a : Announce) → length a.chassis.0 ≡ 6 → CanBeAnnounced a
        → announced (spelling a) ≡ Ok a }
{}

/// Every announcement has 41 bytes.
pub fn announcements_are_short()
    ensures { (a : Announce) → length a.chassis.0 ≡ 6 → length (spelling a) ≡ 41 }
{}
