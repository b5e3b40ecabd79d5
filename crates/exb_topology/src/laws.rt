//! What holds of every topology that a file gives.
ghost use Rattle.exb_topology.specs.Soundness.{ReadIsSound};

/// A topology that a file gives names external ports alone in its captures and its commands, has at
/// most 65,536 commands, whose seconds never fall, and at most 60,000 letters of fates together.
pub fn read_is_sound()
    ensures { ReadIsSound }
{}
