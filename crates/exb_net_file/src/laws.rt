//! What holds of every net whose file and topologies have no fault. A law is a function that does
//! nothing and ensures it.
ghost use Rattle.exb_net_file.specs.Soundness.{FilesAreSound, WiresMakeNets, NetsAreOfFile, NetsAreTimely, JoinedIsExact, BridgesWriteApart};

use exb_journal::laws::file_names_differ;

/// A file that is read has 1 to 16 bridges with different names, each of 1 to 32 letters a to z or
/// digits, and at most 15 wires.
pub fn files_are_sound()
    ensures { FilesAreSound }
{}

/// Bridges with valid setups and wires without a fault are a valid net, whatever their captures
/// hold.
pub fn wires_make_nets()
    ensures { WiresMakeNets }
{}

/// Such a net of a file is as large as a file's may be.
pub fn nets_are_of_file()
    ensures { NetsAreOfFile }
{}

/// The commands of sound topologies come in their order.
pub fn nets_are_timely()
    ensures { NetsAreTimely }
{}

/// The test of loops joins bridges exactly where wires do.
pub fn joined_is_exact()
    ensures { JoinedIsExact }
{}

/// Bridges with two names write no file of one name.
pub fn bridges_write_apart()
    ensures { BridgesWriteApart }
{
    file_names_differ();
}
