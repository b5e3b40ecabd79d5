//! Playing an input that is made from a number.
ghost use Rattle.std.specs.Prelude.{◌≡◌, ◌<◌, ◌^◌, IfOk, IfErr, OnOk, string_bytes};
ghost use Rattle.exb_make.specs.GeneratedInputs.{made};
ghost use Rattle.exb_shelf.specs.ScratchFiles.{scratch_files};
ghost use Rattle.exb_run.specs.Answers.{eager_summary};
ghost use Rattle.exb_run.specs.GeneratedCaptures.{IsInputOf, KeepsFirst, KeepsMore};

use exb_cli::Options;
use exb_fate::Fate;
use exb_inputs::{Fault, check_captures};
use exb_make::laws::arrives_at_externals;
use exb_make::{GeneratedCapture, GeneratedInput, make};
use exb_model::memory::NoMemory;
use exb_model::text::Text;
use exb_outputs::Manifest;
use exb_play::{Schedule, Script, play};
use exb_shelf::ScratchShelf;
use exb_topology_tables::Named;
use std::alloc::Global;

/// What the names of all files begin with that are written: none is the name of a capture that was
/// made.
const PREFIX: &str = "out/";

/// Puts a capture on a shelf, and names it behind others.
fn put_one(
    alloc: Global,
    shelf: &mut ScratchShelf,
    capture: &GeneratedCapture,
    names: &mut Vec<Named>,
) -> Result<(), NoMemory>
    ensures { OnOk result (KeepsMore capture.now names.old.items names.new.items
        (scratch_files shelf.old) (scratch_files shelf.new)) }
{
    let port = capture.port;
    let number = port.number();
    let name = format!(in alloc; "in/{number}")?;
    shelf.put(name.as_str(), capture.file.as_slice())?;
    let name = Text::from_str(alloc, name.as_str())?;
    names.push(Named { port, name })?;
    Ok(())
}

/// Puts captures on a shelf, and names them.
fn put_all(
    alloc: Global,
    shelf: &mut ScratchShelf,
    captures: &[GeneratedCapture],
) -> Result<Vec<Named>, NoMemory>
    ensures { IfOk result (λ names. KeepsFirst captures.now captures.now names.items
        (scratch_files shelf.new)) }
{
    let mut names = Vec::new(alloc);
    'putting: for capture in captures {
        put_one(alloc, shelf, capture, &mut names)?;
    }
    Ok(names)
}

/// Plays an input of which the captures are kept, and answers the summary line. Its number is for
/// the contract alone.
fn play_kept(
    alloc: Global,
    number: u64,
    input: &GeneratedInput,
    shelf: &mut ScratchShelf,
    names: &[Named],
    fate: Box<dyn Fate>,
) -> Result<String, Fault>
    requires made { IsInputOf number input.now }
    requires kept { KeepsFirst input.now.captures.items input.now.captures.items names.now
        (scratch_files shelf.old) }
    requires fate { left fate < 2 ^ 56 }
    ensures line { IfOk result (λ line. string_bytes line ≡ eager_summary (made number)) }
    ensures memory { IfErr result (λ fault. fault ≡ Fault.Memory) }
{
    let checked = check_captures(alloc, shelf, names)?;
    let manifest = Manifest::new(alloc, &input.setup, PREFIX, Options::eager(false))?;
    let script = Script {
        setup: &input.setup,
        commands: input.commands.as_slice(),
        fate: &[],
    };
    arrives_at_externals();
    let played = play(
        alloc,
        shelf,
        &manifest,
        &script,
        names,
        checked.as_slice(),
        Schedule::Eager,
        fate,
    );
    // By calls, since a block's end is far longer to prove where it lets these go.
    drop(manifest);
    drop(checked);
    played
}

/// Keeps the captures of an input on files in memory, plays it there, and answers the summary line.
fn play_made(
    alloc: Global,
    number: u64,
    input: &GeneratedInput,
    fate: Box<dyn Fate>,
) -> Result<String, Fault>
    requires made { IsInputOf number input.now }
    requires fate { left fate < 2 ^ 56 }
    ensures line { IfOk result (λ line. string_bytes line ≡ eager_summary (made number)) }
    ensures memory { IfErr result (λ fault. fault ≡ Fault.Memory) }
{
    let mut shelf = ScratchShelf::new(alloc);
    let names = put_all(alloc, &mut shelf, input.captures.as_slice())?;
    let played = play_kept(alloc, number, input, &mut shelf, names.as_slice(), fate);
    drop(names);
    drop(shelf);
    played
}

/// Plays the input of a number on files in memory, and answers the summary line.
pub(crate) fn make_input(alloc: Global, number: u64, fate: Box<dyn Fate>) -> Result<String, Fault>
    requires { left fate < 2 ^ 56 }
    ensures line { IfOk result (λ line. string_bytes line ≡ eager_summary (made number)) }
    ensures memory { IfErr result (λ fault. fault ≡ Fault.Memory) }
{
    let input = make(alloc, number)?;
    let played = play_made(alloc, number, &input, fate);
    drop(input);
    played
}
