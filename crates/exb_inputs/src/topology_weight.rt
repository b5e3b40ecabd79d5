//! How much memory a topology file may take while it is read, by what stands in it outside of
//! strings and comments.
//!
//! Each part of a dotted key, and each inline table, becomes a table that takes more than a
//! kibibyte, so a file of the largest size could take ten gibibytes. One that could take more than
//! there is to be is answered as one for which memory ran out.

/// The most bytes that a file may be thought to take.
const MOST: usize = 900_000_000;

/// What is thought to be taken, by measure and with room to spare: by the table of a part of a key,
/// by a table that has a header or stands inline, by a key with its value or a list, and by a value
/// in a list.
const PART: usize = 1_300;

const TABLE: usize = 1_000;

const ENTRY: usize = 250;

const VALUE: usize = 60;

/// Where a byte stands.
#[derive(Clone, Copy)]
enum LexerState {
    /// Outside of strings and comments.
    Open,
    Comment,
    /// Behind one or two quotes with which a string may begin.
    Quotes { quote: u8, run: u8 },
    /// In a string of one line.
    Line { quote: u8 },
    /// In a string of many lines, behind so many of its quotes.
    Lines { quote: u8, run: u8 },
}

/// A place in a file, whether a line begins there, whether a backslash stands before it, and the
/// weight of what stands before it.
#[derive(Drop)]
struct WeightScan {
    place: LexerState,
    begins: bool,
    escaped: bool,
    weight: usize,
}

impl WeightScan {
    // Outside of strings.
    fn open(&mut self, byte: u8) {
        self.place = match byte {
            b'#' => LexerState::Comment,
            b'"' | b'\'' => LexerState::Quotes {
                quote: byte,
                run: 1,
            },
            _ => LexerState::Open,
        };
        let weight = match byte {
            b'.' => PART,
            b'{' => TABLE,
            b'[' if self.begins => TABLE,
            b'=' | b'[' => ENTRY,
            b',' => VALUE,
            _ => 0,
        };
        self.weight = self.weight.saturating_add(weight);
        self.begins = byte == b'\n' || (self.begins && matches!(byte, b' ' | b'\t'));
    }

    // In a string of one line, which ends at its quote, and at the end of the line in a file that
    // is none.
    fn line(&mut self, byte: u8, quote: u8) {
        if byte == b'\n' {
            self.open(byte);
        } else if byte == quote {
            self.place = LexerState::Open;
        } else {
            self.place = LexerState::Line { quote };
            self.escaped = byte == b'\\' && quote == b'"';
        }
    }

    // In a string of many lines: it ends behind three quotes, and two more may be its own last
    // ones.
    fn lines(&mut self, byte: u8, quote: u8, run: u8) {
        if byte == quote {
            let run = run.saturating_add(1);
            self.place = LexerState::Lines { quote, run };
        } else if run >= 3 {
            self.open(byte);
        } else {
            self.place = LexerState::Lines { quote, run: 0 };
            self.escaped = byte == b'\\' && quote == b'"';
        }
    }

    // Behind quotes: two are an empty string, and three begin one of many lines.
    fn quotes(&mut self, byte: u8, quote: u8, run: u8) {
        match (byte == quote, run) {
            (true, 1) => self.place = LexerState::Quotes { quote, run: 2 },
            (true, _) => self.place = LexerState::Lines { quote, run: 0 },
            (false, 1) => self.line(byte, quote),
            (false, _) => self.open(byte),
        }
    }

    // Goes on by a byte.
    fn step(&mut self, byte: u8) {
        if self.escaped {
            self.escaped = false;
            return;
        }
        match self.place {
            LexerState::Open => self.open(byte),
            LexerState::Comment if byte == b'\n' => self.open(byte),
            LexerState::Comment => {}
            LexerState::Quotes { quote, run } => self.quotes(byte, quote, run),
            LexerState::Line { quote } => self.line(byte, quote),
            LexerState::Lines { quote, run } => self.lines(byte, quote, run),
        }
    }
}

/// What a file is thought to take.
fn weight(file: &[u8]) -> usize {
    let mut scale = WeightScan {
        place: LexerState::Open,
        begins: true,
        escaped: false,
        weight: 0,
    };
    'bytes: for byte in file {
        scale.step(*byte);
    }
    scale.weight
}

/// Whether a topology file could take more memory than there is to be for it.
pub(crate) fn is_heavy(file: &[u8]) -> bool {
    weight(file) > MOST
}
