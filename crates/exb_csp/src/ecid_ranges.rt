//! The ranges of E-CIDs: channels, each of which goes to one port, and groups.

ghost use Rattle.std.specs.Prelude.{◌≡◌};
ghost use Rattle.exb_csp.specs.Execution.{is_channel, is_ecid};

/// Whether the number is that of an E-channel to one port, 1 to 4,094.
pub fn is_channel(ecid: u16) -> bool
    ensures { result ≡ is_channel ecid }
{
    ecid > 0 && ecid < 4095
}

/// Whether the number is that of an E-channel to one port, or that of a group, 4,096 to 16,383.
pub fn is_ecid(ecid: u16) -> bool
    ensures { result ≡ is_ecid ecid }
{
    is_channel(ecid) || (ecid >= 0x1000 && ecid < 0x4000)
}
