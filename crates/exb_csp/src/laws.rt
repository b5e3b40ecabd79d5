//! What holds of every message, of every extender that executes requests, and of every session.

ghost use Rattle.exb_csp.specs.Laws.{WrittenIsRead, ReadIsSpelled, MessagesAreShort, RefusedChangesNothing, RegisterSetsTheMask, UnregisterClearsTheRow, RegisterManyIsItsRows, UnregisterManyIsItsEcids, HasPairExactly, SomeBitExactly};
ghost use Rattle.exb_csp.specs.AllTablesLaws.{DoneAtEachPort, RefusedAtNoPort, RunsLayRows};
ghost use Rattle.exb_csp.specs.Sessions.AskingEnd.{StaysSound, AsksAreSpelled};
ghost use Rattle.exb_csp.specs.Sessions.Runs.{EachRequestOnce, RequestsAreAnswered, MessagesAreNumbered, MessagesAreSpelled};

/// What is written is read again as the same message.
pub fn written_is_read()
    ensures { WrittenIsRead }
{}

/// What is read is spelled by the bytes that were read: a message has one spelling.
pub fn read_is_spelled()
    ensures { ReadIsSpelled }
{}

/// A message has 11 bytes before its body, and at most 651 bytes.
pub fn messages_are_short()
    ensures { MessagesAreShort }
{}

/// A request that is answered with a code other than 0 leaves the tables.
pub fn refused_changes_nothing()
    ensures { RefusedChangesNothing }
{}

/// Register that is done gives the E-CID exactly the pairs of the mask, and changes nothing else.
pub fn register_sets_the_mask()
    ensures { RegisterSetsTheMask }
{}

/// Unregister that is done removes exactly the pairs of the E-CID, and changes nothing else.
pub fn unregister_clears_the_row()
    ensures { UnregisterClearsTheRow }
{}

/// RegisterMany that is done is its rows one after another, each of them done.
pub fn register_many_is_its_rows()
    ensures { RegisterManyIsItsRows }
{}

/// UnregisterMany that is done is its E-CIDs one after another, each of them done.
pub fn unregister_many_is_its_ecids()
    ensures { UnregisterManyIsItsEcids }
{}

/// An E-CID has a pair exactly where it has one with a port of 1 to 64.
pub fn has_pair_exactly()
    ensures { HasPairExactly }
{}

/// A word of 64 bits has the bit of some port exactly where it isn't 0.
pub fn some_bit_exactly()
    ensures { SomeBitExactly }
{}

/// A request that is answered with code 0 does at each port what it asks, and changes nothing else
/// in the tables of all extenders.
pub fn done_at_each_port()
    ensures { DoneAtEachPort }
{}

/// A request that is answered with another code changes nothing there.
pub fn refused_at_no_port()
    ensures { RefusedAtNoPort }
{}

/// A run of Registers of one number at any extenders, each of them done, lays exactly their masks.
pub fn runs_lay_rows()
    ensures { RunsLayRows }
{}

/// Over every list of asks, and of deliveries of any message sent so far, in any order and number:
/// what is executed is a front of what was asked, each once and in order, and what the asker took
/// as answers is a front of the stored responses, in order.
pub fn each_request_once()
    ensures { EachRequestOnce }
{}

/// Where nothing is lost, a request is executed when it comes, and the response that is stored, if
/// it is one to such a request, is taken as its answer.
pub fn requests_are_answered()
    ensures { RequestsAreAnswered }
{}

/// Over every list of asks and deliveries, a request that was sent under serial k is the k-th that
/// was asked, and an answer under serial k is the k-th response that was stored.
pub fn messages_are_numbered()
    ensures { MessagesAreNumbered }
{}

/// Where each request that is asked and each response that is stored can be spelled, so can each
/// message.
pub fn messages_are_spelled()
    ensures { MessagesAreSpelled }
{}

/// Whatever an asker asks, takes and counts, it counts fewer than sixteen beats, and what it waits
/// for has a serial.
pub fn asker_stays_sound()
    ensures { StaysSound }
{}

/// What an asker asks has a spelling where its request can be spelled, the first time and once
/// more.
pub fn asks_are_spelled()
    ensures { AsksAreSpelled }
{}
