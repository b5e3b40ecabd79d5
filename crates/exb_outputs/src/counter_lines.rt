//! Counts as lines of the counters.
ghost use Rattle.std.specs.Prelude.{◌≡◌, ◌≤◌, ◌<◌, ℕ, List, length, true, OnErr, OnOk};
ghost use Rattle.exb_counters.specs.Counters.{count_line, count_lines};
ghost use Rattle.exb_counters.specs.CounterUpdates.{HasPort};
ghost use Rattle.exb_model.specs.Tree.{external_ports, is_external};
ghost use Rattle.exb_shelf.specs.Files.{Files};
ghost use Rattle.exb_journal.specs.declared.file_names.OutputKind.{OutputKind};
ghost use Rattle.exb_journal.specs.declared.file_names.OutputKind.TheVariants as output;
ghost use Rattle.exb_outputs.specs.Manifests.{port_at, port_count};
ghost use Rattle.exb_outputs.specs.CaptureSizes.{AreCountedAt, IsCountedAt, SameCaptures};
ghost use Rattle.exb_outputs.specs.ShelfEffects.{CountsWrites, OnlyWrites};
ghost use Rattle.exb_outputs.specs.WrittenTexts.{AreCut, HasTexts, IsReady, pieces_of, with_more};
ghost use Rattle.exb_outputs.specs.Counts.{counts_with};

use crate::{Manifest, Outputs};
use exb_counters::{Counters, Counts5, write_count_line};
use exb_journal::OutputKind;
use exb_model::port::PortId;
use exb_shelf::{Shelf, ShelfFault};

/// How many bytes a capture has before its first record.
const HEADER: u64 = 24;

/// How many bytes a record has before its frame.
const RECORD: u64 = 16;

/// The counts of the port of capture `at`.
fn counts_of(outputs: &Outputs, manifest: &Manifest, at: u16, counters: &Counters) -> Counts5
    requires within { at < port_count manifest.now }
    requires files { port_count manifest.now ≤ length outputs.now.files.items }
    requires port { HasPort counters.now (port_at manifest.now at) }
    requires counted { IsCountedAt manifest.now outputs.now (port_at manifest.now at) }
    ensures { result ≡ counts_with manifest.now outputs.now counters.now (port_at manifest.now at) }
{
    let frames = outputs.frames_of(manifest, at);
    let size = outputs.size_of(manifest, at);
    let came = counters.line(manifest.port(at));
    Counts5 {
        relayed: came.relayed,
        dropped: came.dropped,
        ignored: came.ignored,
        left: frames,
        octets: size - HEADER - RECORD * frames,
    }
}

/// Puts the line of a port's counts behind the counters, which are asked for.
fn add_count<S: Shelf>(
    shelf: &mut S,
    manifest: &Manifest,
    outputs: &mut Outputs,
    line: &mut Vec<u8>,
    port: PortId,
    counts: &Counts5,
) -> Result<(), ShelfFault>
    requires asked { manifest.now.options.counters ≡ true }
    requires ready { IsReady manifest.now (S.ids shelf.old) outputs.old }
    ensures ready { IsReady manifest.now (S.ids shelf.new) outputs.new }
    ensures texts { S.tells → OnOk result ((orig : Files) (text : OutputKind → List ℕ)
        → HasTexts manifest.now (pieces_of outputs.old) orig (S.file shelf.old) text
        → HasTexts manifest.now (pieces_of outputs.new) orig (S.file shelf.new)
        (with_more text output.Counters (count_line port counts.now))) }
    ensures cut { S.tells → OnErr result ((orig : Files) (text : OutputKind → List ℕ)
        → HasTexts manifest.now (pieces_of outputs.old) orig (S.file shelf.old) text
        → AreCut manifest.now orig (S.file shelf.new)
        (with_more text output.Counters (count_line port counts.now))) }
    ensures same { OnOk result (SameCaptures manifest.now outputs.old outputs.new) }
    ensures only { OnlyWrites S.tells manifest.now (S.file shelf.old) (S.file shelf.new)
        (S.ids shelf.old) (S.ids shelf.new) }
    ensures faults { CountsWrites result (S.faults shelf.old) (S.faults shelf.new) }
{
    line.clear();
    if write_count_line(line, port, counts).is_err() {
        return Err(ShelfFault::Memory);
    }
    outputs.write(shelf, manifest, OutputKind::Counters, line.as_slice())
}

/// Puts the lines of all counts behind the counters, which are asked for: what came in, by these
/// counters, and what left, by the captures. `line` is room for one line.
pub fn write_counters<S: Shelf>(
    shelf: &mut S,
    manifest: &Manifest,
    outputs: &mut Outputs,
    line: &mut Vec<u8>,
    counters: &Counters,
) -> Result<(), ShelfFault>
    requires asked { manifest.now.options.counters ≡ true }
    requires ports { (q : ℕ) → q < 4160 → is_external manifest.now.tree q ≡ true
        → HasPort counters.now q }
    requires counted { AreCountedAt manifest.now outputs.old }
    requires ready { IsReady manifest.now (S.ids shelf.old) outputs.old }
    ensures ready { IsReady manifest.now (S.ids shelf.new) outputs.new }
    ensures texts { S.tells → OnOk result ((orig : Files) (text : OutputKind → List ℕ)
        → HasTexts manifest.now (pieces_of outputs.old) orig (S.file shelf.old) text
        → HasTexts manifest.now (pieces_of outputs.new) orig (S.file shelf.new)
        (with_more text output.Counters
        (count_lines (counts_with manifest.now outputs.old counters.now)
        (external_ports manifest.now.tree)))) }
    ensures cut { S.tells → OnErr result ((orig : Files) (text : OutputKind → List ℕ)
        → HasTexts manifest.now (pieces_of outputs.old) orig (S.file shelf.old) text
        → AreCut manifest.now orig (S.file shelf.new)
        (with_more text output.Counters
        (count_lines (counts_with manifest.now outputs.old counters.now)
        (external_ports manifest.now.tree)))) }
    ensures same { OnOk result (SameCaptures manifest.now outputs.old outputs.new) }
    ensures only { OnlyWrites S.tells manifest.now (S.file shelf.old) (S.file shelf.new)
        (S.ids shelf.old) (S.ids shelf.new) }
    ensures faults { CountsWrites result (S.faults shelf.old) (S.faults shelf.new) }
{
    for at in 0..manifest.count() {
        let counts = counts_of(outputs, manifest, at, counters);
        add_count(shelf, manifest, outputs, line, manifest.port(at), &counts)?;
    }
    Ok(())
}
