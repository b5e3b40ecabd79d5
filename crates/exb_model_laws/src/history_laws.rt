//! Laws of the histories that an input allows. Each speaks of every input, valid or not.
ghost use Rattle.std.specs.Prelude.{◌≡◌, count_by};
ghost use Rattle.exb_model.specs.Tree.{Shape};
ghost use Rattle.exb_model.specs.History.{Basis, History};
ghost use Rattle.exb_model.specs.Texts.{counts, with_left};
ghost use Rattle.exb_model_laws.specs.SummaryCounts.{counted_all, all_left, is_relay, is_ignored, is_commit, is_refusal};
ghost use Rattle.exb_model_laws.specs.PlayedHistories.{LegalPlaysInput, CommandsInFileOrder, SummaryAddsUp, PlayedAtOnceIsLegal, PlayedAtOnceIsEager, EagerIsLegal, SeededIsPossible};
ghost use Rattle.exb_model_laws.specs.UniqueHistory.{JournalTellsHistory, JournalTellsLegal, SmallIsWritten};

/// A history that an input allows, in the eager mode or in a seeded one, relays or ignores each
/// record of each capture once, and commits or refuses each command once.
pub fn legal_plays_input()
    ensures { LegalPlaysInput }
{}

/// Where the seconds of the commands don't fall, they are committed or refused in the order of the
/// topology file.
pub fn commands_in_file_order()
    ensures { CommandsInFileOrder }
{}

/// In a summary of such a history, relayed and ignored frames add up to the records of all
/// captures, and commits and refusals to the commands.
pub fn summary_adds_up()
    ensures { SummaryAddsUp }
{}

/// The counts of a summary are how many events of each sort the history has, and how many frames
/// left the external ports by the one flat bridge.
pub fn counts_are_counted()
    ensures all { (t : Shape) (b : Basis) (h : History) → counts t b h ≡ record {
      relayed = count_by is_relay h;
      ignored = count_by is_ignored h;
      left = all_left t b h;
      commits = count_by is_commit h;
      refusals = count_by is_refusal h;
    } }
    ensures parts { (t : Shape) (b : Basis) (h : History) → counts t b h
        ≡ with_left (all_left t b h) (counted_all h) }
{}

/// In either mode one history is allowed: that in which each segment plays its tick, then its
/// commands and then its arrivals, each at once. In the eager mode it is the eager history.
pub fn played_at_once_is_legal()
    ensures legal { PlayedAtOnceIsLegal }
    ensures eager { PlayedAtOnceIsEager }
{}

/// So the history of the eager run is one of the histories that its input allows.
pub fn eager_is_legal()
    ensures { EagerIsLegal }
{}

/// And each input has a history that a seeded run may tell.
pub fn seeded_is_possible()
    ensures { SeededIsPossible }
{}

/// The journal and the input together tell the history: two histories whose numbers have 64 bits,
/// and whose Relays are of records of the input, are the same where their journals are the same
/// text.
pub fn journal_tells_history()
    ensures { JournalTellsHistory }
{}

/// So it is with all histories that an input from files allows, in whichever modes: one journal is
/// of one of them.
pub fn journal_tells_legal()
    ensures { JournalTellsLegal }
{}

/// There are such inputs: any setup with two commands, in the order of their seconds, and a record
/// at each port.
pub fn small_is_written()
    ensures { SmallIsWritten }
{}
