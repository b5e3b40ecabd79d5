//! What is still to come of the commands and captures of an input. Each law is a function that does
//! nothing and ensures it.
ghost use Rattle.exb_timeline.specs.Laws.{AgendasStay, DuesOfAll, MergeKeepsOrder, MergeOfAll, MergeOfChosen, NetStartIsLeast, StartIsLeast};

/// The captures of the ports that pass a test, in port order, give all that comes, where there is
/// no command and no other port has a record.
pub fn merge_of_chosen()
    ensures { MergeOfChosen }
{}

/// The commands of a topology, and the captures of the ports that pass a test, in port order, give
/// all that comes, where no other port has a record.
pub fn merge_of_all()
    ensures { MergeOfAll }
{}

/// What comes first of some captures comes in the least second of their first records; 0 where
/// there is none.
pub fn start_is_least()
    ensures { StartIsLeast }
{}

/// The records of a port come in the order of its capture, and none comes of what is no port.
pub fn merge_keeps_order()
    ensures { MergeKeepsOrder }
{}

/// What is still to come of the commands and captures of all bridges of a net, before anything is
/// taken, is all that comes to it, in its order.
pub fn dues_of_all()
    ensures { DuesOfAll }
{}

/// The start of a net is the least second of any first record of any bridge, or 0.
pub fn net_start_is_least()
    ensures { NetStartIsLeast }
{}

/// Whatever is opened, read or written elsewhere: an agenda stays as it is while the ids through
/// which it reads stand for what they stood for, and so does what is still to come of it while
/// their files have the same bytes.
pub fn agendas_stay()
    ensures { AgendasStay }
{}
