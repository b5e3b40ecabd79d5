//! Fates for a net.
ghost use Rattle.std.specs.Prelude.{◌≡◌, ◌+◌, ◌<◌, ◌^◌, ℕ, All, IfOk, OnErr, OnOk, Some, length};
ghost use Rattle.exb_cli.specs.CommandLines.{Make};
ghost use Rattle.exb_run.specs.Answers.{asked};
ghost use Rattle.exb_run.specs.Endings.{Ends};

use crate::top::run;
use exb_fate::{Fate, ScriptFate};
use exb_model::memory::NoMemory;
use exb_shelf::{Shelf, Sink};
use std::alloc::Global;

/// Puts the fate of one bridge more behind others. It gives few enough verdicts for `run`.
pub fn add_fate(fates: &mut Vec<Box<dyn Fate>>, fate: Box<dyn Fate>) -> Result<(), NoMemory>
    requires { left fate < 2 ^ 56 }
    ensures many { OnOk result (length fates.new.items ≡ length fates.old.items + 1) }
    ensures each { OnOk result (All (λ f. left f < 2 ^ 56) fates.old.items
        → All (λ f. left f < 2 ^ 56) fates.new.items) }
{
    fates.push(fate)?;
    Ok(())
}

/// Calls `run` over fates that do as they are armed to, one for each bridge that a net may have,
/// and answers its status, which says all that that of `run` says; or memory ran out before, and
/// nothing was opened or printed. There is no loop, since what is true of a `dyn` value can't be
/// named in its invariant here.
pub fn run_armed<S: Shelf, O: Sink>(
    alloc: Global,
    words: &[String],
    shelf: &mut S,
    out: &mut O,
) -> Result<u8, NoMemory>
    ensures ends { IfOk result (λ status. Ends S.tells O.tells (asked words.now) status
        (S.file shelf.old) (S.file shelf.new) (S.faults shelf.old) (S.faults shelf.new)
        (S.ids shelf.old) (S.ids shelf.new) (O.faults out.old) (O.faults out.new) (O.text out.old)
        (O.text out.new)) }
    ensures alone { (number : ℕ) → asked words.now ≡ Some (Make number) → shelf.new ≡ shelf.old }
    ensures nothing { OnErr result (shelf.new ≡ shelf.old) }
    ensures silent { OnErr result (out.new ≡ out.old) }
{
    let mut more: Vec<Box<dyn Fate>> = Vec::new(alloc);
    add_fate(&mut more, Box::new(alloc, ScriptFate::new(alloc))?)?;
    add_fate(&mut more, Box::new(alloc, ScriptFate::new(alloc))?)?;
    add_fate(&mut more, Box::new(alloc, ScriptFate::new(alloc))?)?;
    add_fate(&mut more, Box::new(alloc, ScriptFate::new(alloc))?)?;
    add_fate(&mut more, Box::new(alloc, ScriptFate::new(alloc))?)?;
    add_fate(&mut more, Box::new(alloc, ScriptFate::new(alloc))?)?;
    add_fate(&mut more, Box::new(alloc, ScriptFate::new(alloc))?)?;
    add_fate(&mut more, Box::new(alloc, ScriptFate::new(alloc))?)?;
    add_fate(&mut more, Box::new(alloc, ScriptFate::new(alloc))?)?;
    add_fate(&mut more, Box::new(alloc, ScriptFate::new(alloc))?)?;
    add_fate(&mut more, Box::new(alloc, ScriptFate::new(alloc))?)?;
    add_fate(&mut more, Box::new(alloc, ScriptFate::new(alloc))?)?;
    add_fate(&mut more, Box::new(alloc, ScriptFate::new(alloc))?)?;
    add_fate(&mut more, Box::new(alloc, ScriptFate::new(alloc))?)?;
    add_fate(&mut more, Box::new(alloc, ScriptFate::new(alloc))?)?;
    let fate: Box<dyn Fate> = Box::new(alloc, ScriptFate::new(alloc))?;
    Ok(run(alloc, words, shelf, out, fate, more))
}
