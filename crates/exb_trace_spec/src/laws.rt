//! What is true of the rules of a legal trace and of the texts of its lines.
ghost use Rattle.exb_trace_spec.specs.WrongTraces.{RefusesWrong};
ghost use Rattle.exb_trace_spec.specs.WritableLines.{LegalLinesAreSpelled};
ghost use Rattle.exb_trace_spec.specs.RoundTrips.{LinesReadBack, LinesDiffer, LinesAreWritten, TracesReadBack, EntriesReadBack, EntriesAreWritten, JournalsReadBack, JournalsDiffer, JournalsAreLines};

/// Traces that are wrong by one rule aren't legal: an extender sends what its machine doesn't, a
/// control word overtakes a data word, a data word comes from nowhere, a record is relayed with no
/// frame that came, the bridge sends data with nothing relayed, or nothing is said of a frame that
/// came.
pub fn wrong_traces_are_refused()
    ensures { RefusesWrong }
{}

/// The text of each line that can be written, with a device and a side of it, bytes, or a line of
/// the journal, is read back as that line.
pub fn lines_read_back()
    ensures { LinesReadBack }
{}

/// So no two of them have one text.
pub fn lines_differ()
    ensures { LinesDiffer }
{}

/// And a text that is read as a line is the text of that line: no others are read.
pub fn lines_are_written()
    ensures { LinesAreWritten }
{}

/// So the text of a whole trace gives its lines.
pub fn traces_read_back()
    ensures { TracesReadBack }
{}

/// The text of each line of a journal is read back as what it says.
pub fn entries_read_back()
    ensures { EntriesReadBack }
{}

/// And a text that is read as such, with numbers of 64 bits, is its text.
pub fn entries_are_written()
    ensures { EntriesAreWritten }
{}

/// The text of a whole journal, and the arrivals of each port, give the history: of a Relay the
/// line names the port and the index, and the arrival has the moment and the bytes.
pub fn journals_read_back()
    ensures { JournalsReadBack }
{}

/// So a journal and the arrivals have one history.
pub fn journals_differ()
    ensures { JournalsDiffer }
{}

/// The text of a journal is cut into the lines of its events, and each of them can be read.
pub fn journals_are_lines()
    ensures { JournalsAreLines }
{}

/// Each line of a legal trace can be written, so that its text is read back as that line: its
/// places are there by rule 1, its frames are bytes, and the lines of its journal are those of
/// events with numbers of 64 bits.
pub fn legal_lines_are_spelled()
    ensures { LegalLinesAreSpelled }
{}
