//! The output files while they are written.
ghost use Rattle.std.specs.Prelude.{◌≡◌, ◌≢◌, true, ◌≤◌, ◌<◌, ◌+◌, ◌^◌, ◌++◌, ℕ, List, [], length, None, IfOk, OnOk, OnErr, IfErr, string_bytes, ◌∷◌, ◌⊎◌};
ghost use Rattle.exb_shelf.specs.Files.{Files, SameFiles, Puts, Adds, AddsFront, Filled};
ghost use Rattle.exb_shelf.specs.Shelf.{IsWriting, Opens, writing};
ghost use Rattle.exb_cli.specs.Kinds.{is_asked, port_of};
ghost use Rattle.exb_outputs.specs.Manifests.{Listed, kind_at, output_count, output_name, port_at, port_count};
ghost use Rattle.exb_outputs.specs.CreationOrder.{MakesFile, MakesInOrder};
ghost use Rattle.exb_inputs.specs.ShelfEffects.{CountsFaults};
ghost use Rattle.exb_outputs.specs.ShelfEffects.{CountsWrites, IsOfWriting, OnlyMakes, OnlyWrites, WritesListed};
ghost use Rattle.exb_model.specs.FlatBridge.{Sent};
ghost use Rattle.exb_model.specs.Tree.{is_external};
ghost use Rattle.exb_journal.specs.declared.file_names.OutputKind.{OutputKind};
ghost use Rattle.exb_journal.specs.declared.file_names.OutputKind.TheVariants as output;
ghost use Rattle.exb_outputs.specs.CaptureSizes.{GrowsAt, HasSent, SameCaptures, frames_at, records_of, sent_more, size_at, sizes_of};
ghost use Rattle.exb_outputs.specs.WrittenTexts.{ids_of, pieces_of, AreCut, HasTexts, IsReady, first_text, with_more};

use crate::manifest::Manifest;
use exb_capture::header_text;
use exb_inputs::Fault;
use exb_journal::laws::file_names_differ;
use exb_journal::{OutputKind, file_name};
use exb_model::memory::NoMemory;
use exb_model::port::PortId;
use exb_shelf::{PIECE, Shelf, ShelfFault, write_text};
use std::alloc::Global;

/// How many bytes a piece first has room for, where it gets any.
const FIRST: usize = 4_096;

/// How many bytes a piece then has room for at once: those of a whole one, and of a frame that goes
/// past its end.
const WHOLE: usize = 67_584;

/// An output while it is written.
#[derive(Drop)]
struct OpenOutput {
    /// The id of its file.
    id: u32,
    /// What of its text is not written yet.
    piece: Vec<u8>,
    /// How many bytes of its text are written, as far as 64 bits count.
    written: u64,
    /// How many records were put behind it, as far as 64 bits count.
    records: u64,
}

/// The outputs in the order in which they are made.
pub struct Outputs {
    files: Vec<OpenOutput>,
}

impl Drop for Outputs {
    fn drop(self) {
        let Outputs { files: _ } = self;
    }
}

/// The name of output `at`.
fn output_name(alloc: Global, manifest: &Manifest, at: u16) -> Result<String, NoMemory>
    requires { at < output_count manifest.now }
    ensures { IfOk result (λ name. string_bytes name ≡ output_name manifest.now at) }
{
    file_name(alloc, manifest.prefix(), &manifest.kind(at))
}

/// The outputs of a manifest have different names.
fn output_names_differ()
    ensures { (manifest : Listed) (i j : ℕ) → i < output_count manifest → j < output_count manifest
        → i ≢ j → output_name manifest i ≢ output_name manifest j }
{
    file_names_differ();
}

/// What output `at` begins with.
fn first_piece(alloc: Global, manifest: &Manifest, at: u16) -> Result<Vec<u8>, NoMemory>
    requires { at < output_count manifest.now }
    ensures { IfOk result (λ piece. piece.items ≡ first_text (kind_at manifest.now at)) }
{
    match manifest.kind(at) {
        OutputKind::Capture(_) => Ok(header_text().to_vec(alloc)?),
        _ => Ok(Vec::new(alloc)),
    }
}

/// Makes output `at`, and puts its id and first piece behind the others.
fn create_one<S: Shelf>(
    alloc: Global,
    shelf: &mut S,
    manifest: &Manifest,
    at: u16,
    outputs: &mut Outputs,
) -> Result<(), Fault>
    requires within { at < output_count manifest.now }
    requires files { length outputs.old.files.items ≡ at }
    ensures ids { OnOk result ((id : ℕ) × (ids_of outputs.new ≡ ids_of outputs.old ++ id ∷ [])
        × (S.ids shelf.new id ≡ writing (output_name manifest.now at))) }
    ensures pieces { OnOk result (pieces_of outputs.new ≡ pieces_of outputs.old
        ++ first_text (kind_at manifest.now at) ∷ []) }
    ensures records { OnOk result (records_of outputs.new ≡ records_of outputs.old ++ 0 ∷ []) }
    ensures sizes { OnOk result (sizes_of outputs.new ≡ sizes_of outputs.old
        ++ length (first_text (kind_at manifest.now at)) ∷ []) }
    ensures count { OnOk result (length outputs.new.files.items ≡ at + 1) }
    ensures opened { Opens (WritesListed manifest.now) (S.ids shelf.old) (S.ids shelf.new) }
    ensures makes { OnOk result ((id : ℕ) × MakesFile id (output_name manifest.now at)
        (S.ids shelf.old) (S.ids shelf.new)) }
    ensures may_make { OnErr result (((j : ℕ) → S.ids shelf.new j ≡ S.ids shelf.old j)
        ⊎ ((id : ℕ) × MakesFile id (output_name manifest.now at) (S.ids shelf.old)
        (S.ids shelf.new))) }
    ensures empty { S.tells → OnOk result (Puts (S.file shelf.old) (S.file shelf.new)
        (output_name manifest.now at) []) }
    ensures others { S.tells → OnErr result ((m : List ℕ) → m ≢ output_name manifest.now at
        → S.file shelf.new m ≡ S.file shelf.old m) }
    ensures stays { S.tells → OnErr result (SameFiles (S.file shelf.old) (S.file shelf.new)
        ⊎ Puts (S.file shelf.old) (S.file shelf.new) (output_name manifest.now at) []) }
    ensures causes { IfErr result IsOfWriting }
    ensures faults { CountsFaults result (S.faults shelf.old) (S.faults shelf.new) }
{
    let name = output_name(alloc, manifest, at)?;
    let piece = first_piece(alloc, manifest, at)?;
    let id = shelf.create(name.as_str())?;
    let file = OpenOutput {
        id,
        piece,
        written: 0,
        records: 0,
    };
    if outputs.files.push(file).is_err() {
        return Err(Fault::Memory);
    }
    Ok(())
}

/// Makes all outputs, each empty, with the piece that it begins with.
pub fn create_all<S: Shelf>(
    alloc: Global,
    shelf: &mut S,
    manifest: &Manifest,
) -> Result<Outputs, Fault>
    ensures ready { IfOk result (λ outputs. IsReady manifest.now (S.ids shelf.new) outputs) }
    ensures texts { S.tells → IfOk result (λ outputs. HasTexts manifest.now (pieces_of outputs)
        (S.file shelf.old) (S.file shelf.new) first_text) }
    ensures sent { IfOk result (λ outputs. HasSent manifest.now outputs (λ q. [])) }
    ensures cut { S.tells → OnErr result ((text : OutputKind → List ℕ)
        → AreCut manifest.now (S.file shelf.old) (S.file shelf.new) text) }
    ensures only { OnlyMakes S.tells manifest.now (S.file shelf.old) (S.file shelf.new)
        (S.ids shelf.old) (S.ids shelf.new) }
    ensures made { MakesInOrder manifest.now result (S.ids shelf.old) (S.ids shelf.new) }
    ensures causes { IfErr result IsOfWriting }
    ensures faults { CountsFaults result (S.faults shelf.old) (S.faults shelf.new) }
{
    let mut outputs = Outputs {
        files: Vec::new(alloc),
    };
    output_names_differ();
    for at in 0..manifest.outputs() {
        create_one(alloc, shelf, manifest, at, &mut outputs)?;
    }
    Ok(outputs)
}

/// Writes what is not written yet of one output.
#[cold]
#[inline(never)]
fn flush<S: Shelf>(shelf: &mut S, file: &mut OpenOutput) -> Result<(), ShelfFault>
    requires { IsWriting (S.ids shelf.old file.old.id) }
    ensures written { S.tells
        → OnOk result (Adds (S.file shelf.old) (S.file shelf.new) (S.ids shelf.old file.old.id).name
        file.old.piece.items) }
    ensures front { S.tells → OnErr result (AddsFront (S.file shelf.old) (S.file shelf.new)
        (S.ids shelf.old file.old.id).name file.old.piece.items) }
    ensures empty { OnOk result (file.new.piece.items ≡ []) }
    ensures id { file.new.id ≡ file.old.id }
    ensures records { file.new.records ≡ file.old.records }
    ensures counted { OnOk result (file.old.written + length file.old.piece.items < 2 ^ 64
        → file.new.written ≡ file.old.written + length file.old.piece.items) }
    ensures others { S.tells → (m : List ℕ) → m ≢ (S.ids shelf.old file.old.id).name
        → S.file shelf.new m ≡ S.file shelf.old m }
    ensures kept { (j : ℕ) → S.ids shelf.new j ≡ S.ids shelf.old j }
    ensures faults { CountsWrites result (S.faults shelf.old) (S.faults shelf.new) }
{
    write_text(shelf, file.id, file.piece.as_slice())?;
    file.written = file.written.wrapping_add(file.piece.len() as u64);
    file.piece.clear();
    Ok(())
}

/// Makes room behind a piece, a little at first and then for a whole one, so that it isn't copied
/// over and over as it grows.
#[cold]
#[inline(never)]
fn make_room(piece: &mut Vec<u8>)
    ensures { piece.new.items ≡ piece.old.items }
{
    let room = if piece.capacity() < FIRST {
        FIRST
    } else {
        WHOLE
    };
    // Where there is no memory for it, the piece gets what it needs by itself.
    let _ = piece.reserve(room.saturating_sub(piece.len()));
}

/// Makes room behind a piece where so many bytes have none.
#[inline(always)]
fn see_to_room(piece: &mut Vec<u8>, more: usize)
    ensures { piece.new.items ≡ piece.old.items }
{
    if piece.capacity().wrapping_sub(piece.len()) < more {
        make_room(piece);
    }
}

/// Puts bytes behind a piece, and writes the piece where it is full.
#[inline(always)]
fn add<S: Shelf>(shelf: &mut S, file: &mut OpenOutput, bytes: &[u8]) -> Result<(), ShelfFault>
    requires { IsWriting (S.ids shelf.old file.old.id) }
    ensures kept_or_written { S.tells → OnOk result (
        (SameFiles (S.file shelf.old) (S.file shelf.new)
        × (file.new.piece.items ≡ file.old.piece.items ++ bytes.now))
        ⊎ (Adds (S.file shelf.old) (S.file shelf.new) (S.ids shelf.old file.old.id).name
        (file.old.piece.items ++ bytes.now) × (file.new.piece.items ≡ []))) }
    ensures front { S.tells → OnErr result (AddsFront (S.file shelf.old) (S.file shelf.new)
        (S.ids shelf.old file.old.id).name (file.old.piece.items ++ bytes.now)) }
    ensures id { file.new.id ≡ file.old.id }
    ensures records { file.new.records ≡ file.old.records }
    ensures counted { OnOk result (file.old.written + length file.old.piece.items + length bytes.now
        < 2 ^ 64
        → file.new.written + length file.new.piece.items
        ≡ file.old.written + length file.old.piece.items + length bytes.now) }
    ensures others { S.tells → (m : List ℕ) → m ≢ (S.ids shelf.old file.old.id).name
        → S.file shelf.new m ≡ S.file shelf.old m }
    ensures kept { (j : ℕ) → S.ids shelf.new j ≡ S.ids shelf.old j }
    ensures faults { CountsWrites result (S.faults shelf.old) (S.faults shelf.new) }
{
    see_to_room(&mut file.piece, bytes.len());
    if file.piece.extend_from_slice(bytes).is_err() {
        return Err(ShelfFault::Memory);
    }
    if file.piece.len() < PIECE {
        return Ok(());
    }
    flush(shelf, file)
}

/// Puts a record behind a piece, by its head and its bytes, and writes the piece where it is full.
#[inline(always)]
fn add_record<S: Shelf>(
    shelf: &mut S,
    file: &mut OpenOutput,
    head: &[u8; 16],
    bytes: &[u8],
) -> Result<(), ShelfFault>
    requires { IsWriting (S.ids shelf.old file.old.id) }
    ensures kept_or_written { S.tells → OnOk result (
        (SameFiles (S.file shelf.old) (S.file shelf.new)
        × (file.new.piece.items ≡ file.old.piece.items ++ (head.now ++ bytes.now)))
        ⊎ (Adds (S.file shelf.old) (S.file shelf.new) (S.ids shelf.old file.old.id).name
        (file.old.piece.items ++ (head.now ++ bytes.now)) × (file.new.piece.items ≡ []))) }
    ensures front { S.tells → OnErr result (AddsFront (S.file shelf.old) (S.file shelf.new)
        (S.ids shelf.old file.old.id).name (file.old.piece.items ++ (head.now ++ bytes.now))) }
    ensures id { file.new.id ≡ file.old.id }
    ensures records { file.new.records ≡ file.old.records }
    ensures counted { OnOk result (file.old.written + length file.old.piece.items + length
        (head.now ++ bytes.now) < 2 ^ 64
        → file.new.written + length file.new.piece.items
        ≡ file.old.written + length file.old.piece.items + length (head.now ++ bytes.now)) }
    ensures others { S.tells → (m : List ℕ) → m ≢ (S.ids shelf.old file.old.id).name
        → S.file shelf.new m ≡ S.file shelf.old m }
    ensures kept { (j : ℕ) → S.ids shelf.new j ≡ S.ids shelf.old j }
    ensures faults { CountsWrites result (S.faults shelf.old) (S.faults shelf.new) }
{
    see_to_room(&mut file.piece, head.len());
    if file.piece.extend_from_slice(head).is_err() {
        return Err(ShelfFault::Memory);
    }
    add(shelf, file, bytes)
}

impl Outputs {
    /// Puts a record behind the capture of a port: what stands before the bytes of its frame, and
    /// these.
    #[inline(always)]
    pub fn write_record<S: Shelf>(
        &mut self,
        shelf: &mut S,
        manifest: &Manifest,
        port: PortId,
        head: &[u8; 16],
        bytes: &[u8],
    ) -> Result<(), ShelfFault>
        requires ready { IsReady manifest.now (S.ids shelf.old) self.old }
        requires external { is_external manifest.now.tree port ≡ true }
        requires low { port < 4160 }
        ensures ready { IsReady manifest.now (S.ids shelf.new) self.new }
        ensures texts { S.tells → OnOk result ((orig : Files) (text : OutputKind → List ℕ)
            → HasTexts manifest.now (pieces_of self.old) orig (S.file shelf.old) text
            → HasTexts manifest.now (pieces_of self.new) orig (S.file shelf.new)
            (with_more text (output.Capture port) (head.now ++ bytes.now))) }
        ensures cut { S.tells → OnErr result ((orig : Files) (text : OutputKind → List ℕ)
            → HasTexts manifest.now (pieces_of self.old) orig (S.file shelf.old) text
            → AreCut manifest.now orig (S.file shelf.new)
            (with_more text (output.Capture port) (head.now ++ bytes.now))) }
        ensures sent { OnOk result ((moment : ℕ) (sent : ℕ → List Sent)
            → HasSent manifest.now self.old sent
            → HasSent manifest.now self.new (sent_more sent port (moment, bytes.now))) }
        ensures only { OnlyWrites S.tells manifest.now (S.file shelf.old) (S.file shelf.new)
            (S.ids shelf.old) (S.ids shelf.new) }
        ensures faults { CountsWrites result (S.faults shelf.old) (S.faults shelf.new) }
    {
        output_names_differ();
        let at = manifest.place(port) as usize;
        let file = &mut self.files[at];
        file.records = file.records.wrapping_add(1);
        add_record(shelf, file, head, bytes)
    }

    /// Writes all that is not written yet.
    pub fn finish<S: Shelf>(&mut self, shelf: &mut S, manifest: &Manifest) -> Result<(), ShelfFault>
        requires ready { IsReady manifest.now (S.ids shelf.old) self.old }
        ensures texts { S.tells → OnOk result ((orig : Files) (text : OutputKind → List ℕ)
            → HasTexts manifest.now (pieces_of self.old) orig (S.file shelf.old) text
            → Filled orig (S.file shelf.new) (output_count manifest.now) (output_name manifest.now)
            (λ j bytes. bytes ≡ text (kind_at manifest.now j))) }
        ensures cut { S.tells → OnErr result ((orig : Files) (text : OutputKind → List ℕ)
            → HasTexts manifest.now (pieces_of self.old) orig (S.file shelf.old) text
            → AreCut manifest.now orig (S.file shelf.new) text) }
        ensures only { OnlyWrites S.tells manifest.now (S.file shelf.old) (S.file shelf.new)
            (S.ids shelf.old) (S.ids shelf.new) }
        ensures faults { CountsWrites result (S.faults shelf.old) (S.faults shelf.new) }
    {
        output_names_differ();
        for at in 0..self.files.len() {
            flush(shelf, &mut self.files[at])?;
        }
        Ok(())
    }

    /// Puts bytes behind the file of a kind that is asked for and is no capture.
    #[inline(always)]
    pub fn write<S: Shelf>(
        &mut self,
        shelf: &mut S,
        manifest: &Manifest,
        kind: OutputKind,
        bytes: &[u8],
    ) -> Result<(), ShelfFault>
        requires asked { is_asked manifest.now.options kind ≡ true }
        requires behind { port_of kind ≡ None }
        requires ready { IsReady manifest.now (S.ids shelf.old) self.old }
        ensures ready { IsReady manifest.now (S.ids shelf.new) self.new }
        ensures texts { S.tells → OnOk result ((orig : Files) (text : OutputKind → List ℕ)
            → HasTexts manifest.now (pieces_of self.old) orig (S.file shelf.old) text
            → HasTexts manifest.now (pieces_of self.new) orig (S.file shelf.new)
            (with_more text kind bytes.now)) }
        ensures cut { S.tells → OnErr result ((orig : Files) (text : OutputKind → List ℕ)
            → HasTexts manifest.now (pieces_of self.old) orig (S.file shelf.old) text
            → AreCut manifest.now orig (S.file shelf.new) (with_more text kind bytes.now)) }
        ensures same { OnOk result (SameCaptures manifest.now self.old self.new) }
        ensures only { OnlyWrites S.tells manifest.now (S.file shelf.old) (S.file shelf.new)
            (S.ids shelf.old) (S.ids shelf.new) }
        ensures faults { CountsWrites result (S.faults shelf.old) (S.faults shelf.new) }
    {
        let at = manifest.place_behind(kind);
        self.add_to(shelf, manifest, at, bytes)
    }

    /// How many frames were put behind capture `at`.
    pub fn frames_of(&self, manifest: &Manifest, at: u16) -> u64
        requires within { at < port_count manifest.now }
        requires files { port_count manifest.now ≤ length self.now.files.items }
        ensures { result ≡ frames_at manifest.now self.now (port_at manifest.now at) }
    {
        let file = &self.files[at as usize];
        file.records
    }

    /// How many bytes capture `at` has.
    pub fn size_of(&self, manifest: &Manifest, at: u16) -> u64
        requires within { at < port_count manifest.now }
        requires files { port_count manifest.now ≤ length self.now.files.items }
        requires fits { size_at manifest.now self.now (port_at manifest.now at) < 2 ^ 64 }
        ensures { result ≡ size_at manifest.now self.now (port_at manifest.now at) }
    {
        let file = &self.files[at as usize];
        let size = file.written + file.piece.len() as u64;
        size
    }

    /// Puts bytes behind output `at`.
    #[inline(always)]
    fn add_to<S: Shelf>(
        &mut self,
        shelf: &mut S,
        manifest: &Manifest,
        at: u16,
        bytes: &[u8],
    ) -> Result<(), ShelfFault>
        requires ready { IsReady manifest.now (S.ids shelf.old) self.old }
        requires within { at < output_count manifest.now }
        ensures ready { IsReady manifest.now (S.ids shelf.new) self.new }
        ensures texts { S.tells → OnOk result ((orig : Files) (text : OutputKind → List ℕ)
            → HasTexts manifest.now (pieces_of self.old) orig (S.file shelf.old) text
            → HasTexts manifest.now (pieces_of self.new) orig (S.file shelf.new)
            (with_more text (kind_at manifest.now at) bytes.now)) }
        ensures cut { S.tells → OnErr result ((orig : Files) (text : OutputKind → List ℕ)
            → HasTexts manifest.now (pieces_of self.old) orig (S.file shelf.old) text
            → AreCut manifest.now orig (S.file shelf.new)
            (with_more text (kind_at manifest.now at) bytes.now)) }
        ensures grows { OnOk result (GrowsAt at (length bytes.now) self.old self.new) }
        ensures only { OnlyWrites S.tells manifest.now (S.file shelf.old) (S.file shelf.new)
            (S.ids shelf.old) (S.ids shelf.new) }
        ensures faults { CountsWrites result (S.faults shelf.old) (S.faults shelf.new) }
    {
        output_names_differ();
        let at = at as usize;
        add(shelf, &mut self.files[at], bytes)
    }
}
