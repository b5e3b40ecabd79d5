//! All words together.
ghost use Rattle.std.specs.Prelude.{◌≡◌, map, string_bytes, option_map, option_and_then};
ghost use Rattle.exb_cli.specs.CommandLines.{words_of, items_of, run_of, check_of, make_of, audit_of, net_of, name_alone};
ghost use Rattle.exb_cli.specs.ParserSteps.{ask_of, gathered_of, name_from, net_from};

use crate::invocations::{Invocation, Options};
use crate::numbers::number;
use crate::parser::{ParserState, read};

/// `run`: one name, and each option once at most.
fn run(words: &[String]) -> Option<Invocation<'_>>
    ensures { option_map ask_of result ≡ option_and_then run_of
        (items_of (map string_bytes words.now)) }
{
    let said = read(words)?;
    let topology = said.name?;
    Some(Invocation::Run {
        topology,
        options: said.options,
    })
}

/// The name, where nothing else was said.
fn name_alone(said: ParserState<'_>) -> Option<&str>
    ensures { option_map (λ w. w.now) result ≡ name_from (gathered_of said.entry) }
{
    if said.options.trace || said.options.counters {
        return None;
    }
    match said.options.seed {
        None => said.name,
        Some(_) => None,
    }
}

/// One name alone.
fn only_name(words: &[String]) -> Option<&str>
    ensures { option_map (λ w. w.now) result ≡ option_and_then name_alone
        (items_of (map string_bytes words.now)) }
{
    name_alone(read(words)?)
}

fn check(words: &[String]) -> Option<Invocation<'_>>
    ensures { option_map ask_of result ≡ option_and_then check_of
        (items_of (map string_bytes words.now)) }
{
    let topology = only_name(words)?;
    Some(Invocation::Check { topology })
}

fn make(words: &[String]) -> Option<Invocation<'_>>
    ensures { option_map ask_of result ≡ option_and_then make_of
        (items_of (map string_bytes words.now)) }
{
    let number = number(only_name(words)?.as_bytes())?;
    Some(Invocation::Make { number })
}

fn audit(words: &[String]) -> Option<Invocation<'_>>
    ensures { option_map ask_of result ≡ option_and_then audit_of
        (items_of (map string_bytes words.now)) }
{
    let topology = only_name(words)?;
    Some(Invocation::Audit { topology })
}

/// A net of the name, where no option was said but counters.
fn named_net(said: ParserState<'_>) -> Option<Invocation<'_>>
    ensures { option_map ask_of result ≡ net_from (gathered_of said.entry) }
{
    let Options {
        trace,
        counters,
        seed,
    } = said.options;
    if trace || seed.is_some() {
        return None;
    }
    let file = said.name?;
    Some(Invocation::Net { file, counters })
}

/// `net`: one name, and counters once at most.
fn net(words: &[String]) -> Option<Invocation<'_>>
    ensures { option_map ask_of result ≡ option_and_then net_of
        (items_of (map string_bytes words.now)) }
{
    named_net(read(words)?)
}

/// What the words ask for, without the program's name before them. None exactly where they aren't
/// accepted.
pub fn accept(words: &[String]) -> Option<Invocation<'_>>
    ensures { option_map ask_of result ≡ words_of (map string_bytes words.now) }
{
    let Some((word, rest)) = words.split_first() else {
        return None;
    };
    match word.as_str() {
        "run" => run(rest),
        "check" => check(rest),
        "make" => make(rest),
        "audit" => audit(rest),
        "net" => net(rest),
        _ => None,
    }
}
