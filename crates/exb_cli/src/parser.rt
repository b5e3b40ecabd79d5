//! What the words behind the first say, read one after another.
ghost use Rattle.std.specs.Prelude.{◌≡◌, option_map, option_and_then, map, string_bytes};
ghost use Rattle.exb_cli.specs.CommandLines.{Name, Trace, Counters, Seed, item_of, number_in, is_dashed};
ghost use Rattle.exb_cli.specs.ParserSteps.{gathered_of, with_one, with_all, gathered, nothing_said};

use crate::invocations::Options;
use crate::numbers::number;

/// What was said so far: a name, and the options.
#[derive(Clone, Copy)]
pub(crate) struct ParserState<'a> {
    pub(crate) name: Option<&'a str>,
    pub(crate) options: Options,
}

fn with_name<'a>(said: ParserState<'a>, word: &'a str) -> Option<ParserState<'a>>
    ensures { option_map gathered_of result ≡ with_one (Name word.now) (gathered_of said.entry) }
{
    match said.name {
        None => Some(ParserState {
            name: Some(word),
            options: said.options,
        }),
        Some(_) => None,
    }
}

fn with_trace(said: ParserState<'_>) -> Option<ParserState<'_>>
    ensures { option_map gathered_of result ≡ with_one Trace (gathered_of said.entry) }
{
    let Options {
        trace,
        counters,
        seed,
    } = said.options;
    if trace {
        None
    } else {
        Some(ParserState {
            name: said.name,
            options: Options {
                trace: true,
                counters,
                seed,
            },
        })
    }
}

fn with_counters(said: ParserState<'_>) -> Option<ParserState<'_>>
    ensures { option_map gathered_of result ≡ with_one Counters (gathered_of said.entry) }
{
    let Options {
        trace,
        counters,
        seed,
    } = said.options;
    if counters {
        None
    } else {
        Some(ParserState {
            name: said.name,
            options: Options {
                trace,
                counters: true,
                seed,
            },
        })
    }
}

fn with_seed<'a>(said: ParserState<'a>, word: &[u8]) -> Option<ParserState<'a>>
    ensures { option_map gathered_of result ≡ option_and_then (λ n.
        with_one (Seed n) (gathered_of said.entry)) (number_in word.now) }
{
    let number = number(word)?;
    let Options {
        trace,
        counters,
        seed,
    } = said.options;
    match seed {
        None => Some(ParserState {
            name: said.name,
            options: Options {
                trace,
                counters,
                seed: Some(number),
            },
        }),
        Some(_) => None,
    }
}

/// It begins with `-`, and isn't `-` alone.
fn is_dashed(word: &[u8]) -> bool
    ensures { result ≡ is_dashed word.now }
{
    match word {
        [first, _, ..] => *first == b'-',
        _ => false,
    }
}

/// One word more, where options are still read; neither `--` nor `--seed`.
#[tactic(auto, unfolding(crate::specs::CommandLines::item_of))]
fn with_word<'a>(said: ParserState<'a>, word: &'a str) -> Option<ParserState<'a>>
    ensures { option_map gathered_of result ≡ option_and_then (λ i.
        with_one i (gathered_of said.entry)) (item_of word.now) }
{
    if word == "--trace" {
        return with_trace(said);
    }
    if word == "--counters" {
        return with_counters(said);
    }
    match word.as_bytes().strip_prefix(b"--seed=") {
        Some(seed) => with_seed(said, seed),
        None => {
            if is_dashed(word.as_bytes()) {
                None
            } else {
                with_name(said, word)
            }
        }
    }
}

/// Names alone.
fn with_names<'a>(mut said: ParserState<'a>, words: &'a [String]) -> Option<ParserState<'a>>
    ensures { option_map gathered_of result ≡ with_all (map Name (map string_bytes words.now))
        (gathered_of said.entry) }
{
    for word in words {
        said = with_name(said, word.as_str())?;
    }
    Some(said)
}

/// What these words say.
pub(crate) fn read(words: &[String]) -> Option<ParserState<'_>>
    ensures { option_map gathered_of result ≡ gathered (map string_bytes words.now) nothing_said }
{
    let mut said = ParserState {
        name: None,
        options: Options {
            trace: false,
            counters: false,
            seed: None,
        },
    };
    let mut rest = words;
    while let Some((word, behind)) = rest.split_first() {
        rest = behind;
        let text = word.as_str();
        if text == "--" {
            return with_names(said, rest);
        }
        if text == "--seed" {
            let Some((number, behind)) = rest.split_first() else {
                return None;
            };
            rest = behind;
            said = with_seed(said, number.as_bytes())?;
        } else {
            said = with_word(said, text)?;
        }
    }
    Some(said)
}
