//! All five rules together.
ghost use Rattle.std.specs.Prelude.{◌≡◌, ◌≤◌, ◌↔◌, ℕ, length, slice_index, IfOk};
ghost use Rattle.std.specs.Bool.{Decides};
ghost use Rattle.exb_model.specs.Setup.{IsValid};
ghost use Rattle.exb_trace_spec.specs.Rule4Captures.{IsCaptured};
ghost use Rattle.exb_trace_spec.specs.CheckerLaws.{AreFrames};
ghost use Rattle.exb_trace_spec.specs.Rule5Relays.{AreSteps};
ghost use Rattle.exb_trace_spec.specs.Rule1Places.{NamesPlace};
ghost use Rattle.exb_trace_spec.specs.Traversals.{Each};
ghost use Rattle.exb_trace_spec.specs.Rules.{IsLegal, IsLowestBroken};
ghost use Rattle.exb_audit.specs.Frames.{frames_by};
ghost use Rattle.exb_audit.specs.AllRules.{files_by, FindsRest};

use crate::frames::{PortFrames, table_of};
use crate::rule1_places::{hanging, has_places};
use crate::rule2_extenders::follow_machines;
use crate::rule3_links::keep_links;
use crate::rule4_captures::are_captured;
use crate::rule5_relays::{CaptureTable, all_entered};
use exb_model::bytes::Bytes;
use exb_model::memory::NoMemory;
use exb_model::port::PortId;
use exb_model::setup::Setup;
use exb_model::trace::TraceLine;
use exb_model::tree::Tree;
use exb_trace_spec::checker_laws::rule_5_is_decided;
use std::alloc::Global;

/// What a judge finds.
#[derive(Clone, Copy)]
pub enum Judged {
    /// All rules hold.
    Legal,
    /// The lowest rule that doesn't hold, from 1 to 5.
    Broken { rule: u8 },
}

/// That frames are of ports, and fewer than 64 bits count, as a fact for whoever calls it. It does
/// nothing.
fn are_frames(all: &[PortFrames])
    ensures { AreFrames (frames_by all.now) }
{
    for one in all {
        let _number = one.port.number();
        let _count = one.frames.len();
    }
}

/// Whether rule 5 holds.
fn is_entered(
    alloc: Global,
    tree: &Tree,
    captures: &[PortFrames],
    trace: &[TraceLine],
) -> Result<bool, NoMemory>
    ensures { IfOk result (λ good.
        Decides good (AreSteps tree.now (frames_by captures.now) trace.now)) }
{
    rule_5_is_decided();
    are_frames(captures);
    let table = table_of(alloc, captures)?;
    let captures = CaptureTable {
        all: captures,
        table: table.as_slice(),
    };
    Ok(all_entered(tree, &captures, trace))
}

/// Whether rule 4 holds.
fn is_captured(
    alloc: Global,
    tree: &Tree,
    captures: &[PortFrames],
    outputs: &[PortFrames],
    trace: &[TraceLine],
) -> Result<bool, NoMemory>
    ensures { IfOk result (λ good.
        Decides good (IsCaptured tree.now (frames_by captures.now) (frames_by outputs.now)
        trace.now)) }
{
    if !are_captured(alloc, tree, captures, trace, true)? {
        return Ok(false);
    }
    are_captured(alloc, tree, outputs, trace, false)
}

/// The lowest of rules 2 to 5 that doesn't hold.
fn judge_rest(
    alloc: Global,
    tree: &Tree,
    hanging: &[PortId],
    ports: &[u8],
    captures: &[PortFrames],
    trace: &[TraceLine],
    outputs: &[PortFrames],
) -> Result<Judged, NoMemory>
    requires ports { tree.now.ports ≡ ports.now }
    requires hanging { tree.now.on ≡ hanging.now }
    requires sized { length hanging.now ≡ 65 }
    requires few { (n : ℕ) → slice_index ports.now n ≤ 64 }
    requires places { Each (NamesPlace tree.now) trace.now }
    ensures { IfOk result (λ judged. FindsRest tree.now (frames_by captures.now)
        (frames_by outputs.now) trace.now judged) }
{
    tree.is_tree();
    if !follow_machines(alloc, ports, trace)? {
        return Ok(Judged::Broken { rule: 2 });
    }
    if !keep_links(alloc, ports, hanging, trace)? {
        return Ok(Judged::Broken { rule: 3 });
    }
    if !is_captured(alloc, tree, captures, outputs, trace)? {
        return Ok(Judged::Broken { rule: 4 });
    }
    if !is_entered(alloc, tree, captures, trace)? {
        return Ok(Judged::Broken { rule: 5 });
    }
    Ok(Judged::Legal)
}

/// Whether a trace is legal, and else the lowest rule that doesn't hold, by the setup, the frames
/// of captures and output files, and the lines of journal and trace alone.
pub fn judge(
    alloc: Global,
    setup: &Setup,
    captures: &[PortFrames],
    journal: &[Bytes],
    trace: &[TraceLine],
    outputs: &[PortFrames],
) -> Result<Judged, NoMemory>
    requires { IsValid setup.now }
    ensures legal { IfOk result (λ judged. (judged ≡ Judged.Legal)
        ↔ IsLegal (files_by setup.now captures.now journal.now trace.now outputs.now)) }
    ensures broken { IfOk result (λ judged. (r : ℕ) → judged ≡ Judged.Broken r
        → IsLowestBroken (files_by setup.now captures.now journal.now trace.now outputs.now) r) }
    ensures few { IfOk result (λ judged. (r : ℕ) → judged ≡ Judged.Broken r → (1 ≤ r) × (r ≤ 5)) }
{
    let ports = setup.port_counts();
    let hanging = hanging(setup);
    if !has_places(&ports, journal, trace) {
        return Ok(Judged::Broken { rule: 1 });
    }
    let tree = Tree::new(alloc, setup)?;
    judge_rest(alloc, &tree, &hanging, &ports, captures, trace, outputs)
}
