//! The kinds of files behind the captures that are asked for.
ghost use Rattle.std.specs.Prelude.{◌≡◌, ◌<◌, ◌≤◌, ◌++◌, ◌∷◌, [], if◌then◌else◌, get_or, length, IfOk, OnOk};
ghost use Rattle.exb_journal.specs.declared.file_names.OutputKind.TheVariants as output;
ghost use Rattle.exb_cli.specs.Kinds.{ArePlaces, kinds_behind, number_of, place_among, place_behind};

use crate::invocations::Options;
use exb_journal::OutputKind;
use exb_model::memory::NoMemory;
use std::alloc::Global;
use std::marker::Model;

/// How many kinds there are, captures among them.
const KINDS: usize = 4;

/// What a run is asked for, with the kinds of files behind the captures that it makes, in their
/// order.
#[derive(Drop)]
pub struct OutputKinds {
    options: Options,
    behind: Vec<OutputKind>,
    /// The place of the kind of each number among them.
    places: [u16; KINDS],
}

impl Model for OutputKinds {
    ghost use Rattle.std.specs.Prelude.{◌≡◌};
    ghost use Rattle.exb_cli.specs.declared.invocations.Options.{Options};
    ghost use Rattle.exb_cli.specs.Kinds.{ArePlaces, kinds_behind};

    ghost Value = { Options };

    ghost view = { λ k. k.options };

    ghost invariant = { λ k. (k.behind.items ≡ kinds_behind k.options)
        × ArePlaces (kinds_behind k.options) k.places };
}

/// The number of a kind.
#[inline(always)]
fn number_of(kind: OutputKind) -> u8
    ensures { result ≡ number_of kind }
{
    match kind {
        OutputKind::Capture(_) => 0,
        OutputKind::Journal => 1,
        OutputKind::Trace => 2,
        OutputKind::Counters => 3,
    }
}

/// Puts a kind behind others, where it is asked for.
fn put_if(kinds: &mut Vec<OutputKind>, asked: bool, kind: OutputKind) -> Result<(), NoMemory>
    ensures { OnOk result (kinds.new.items ≡ kinds.old.items ++ (if asked then kind ∷ [] else [])) }
{
    if asked {
        kinds.push(kind)?;
    }
    Ok(())
}

/// The kinds that are asked for.
fn kinds_of(alloc: Global, options: Options) -> Result<Vec<OutputKind>, NoMemory>
    ensures { IfOk result (λ kinds. kinds.items ≡ kinds_behind options) }
{
    let mut kinds = Vec::new(alloc);
    put_if(&mut kinds, true, OutputKind::Journal)?;
    put_if(&mut kinds, options.trace, OutputKind::Trace)?;
    put_if(&mut kinds, options.counters, OutputKind::Counters)?;
    Ok(kinds)
}

/// The place of the kind of a number among others, and their end where it isn't there.
fn place_among(kinds: &[OutputKind], number: u8) -> usize
    ensures { result ≡ place_among number kinds.now }
{
    let mut at = 0;
    'looking: for kind in kinds {
        if number_of(*kind) == number {
            return at;
        }
        at += 1;
    }
    at
}

/// The place of the kind of each number among others.
fn places_among(kinds: &[OutputKind]) -> [u16; KINDS]
    requires { length kinds.now ≤ 256 }
    ensures { ArePlaces kinds.now result }
{
    let mut places = [0u16; KINDS];
    for number in 0..KINDS {
        places[number] = place_among(kinds, number as u8) as u16;
    }
    places
}

impl OutputKinds {
    /// What is asked for.
    pub fn new(alloc: Global, options: Options) -> Result<OutputKinds, NoMemory>
        ensures { IfOk result (λ kinds. kinds ≡ options) }
    {
        let behind = kinds_of(alloc, options)?;
        let places = places_among(behind.as_slice());
        Ok(OutputKinds {
            options,
            behind,
            places,
        })
    }

    /// The options.
    pub fn options(&self) -> Options
        ensures { result ≡ self.now }
    {
        self.options
    }

    /// How many kinds there are behind the captures.
    #[tactic(auto, using(crate::proofs::KindLemmas::few_behind))]
    pub fn count(&self) -> u16
        ensures value { result ≡ length (kinds_behind self.now) }
        ensures range { result ≤ 256 }
    {
        self.behind.len() as u16
    }

    /// The kind at a place behind the captures.
    pub fn kind(&self, at: u16) -> OutputKind
        requires { at < length (kinds_behind self.now) }
        ensures { result ≡ get_or (kinds_behind self.now) at output.Journal }
    {
        self.behind[at as usize]
    }

    /// The place of a kind behind the captures.
    #[inline(always)]
    pub fn place(&self, kind: OutputKind) -> u16
        ensures value { result ≡ place_behind self.now kind }
        ensures range { result ≤ 256 }
    {
        self.places[number_of(kind) as usize]
    }
}
