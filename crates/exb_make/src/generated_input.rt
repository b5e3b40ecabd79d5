//! The whole input.
ghost use Rattle.std.specs.Prelude.{◌≡◌, ◌≤◌, ◌^◌, [], All, AllPairs, Ok, map, length, sum_by, IfOk, OnOk};
ghost use Rattle.exb_model.specs.Input.{given_by, tree_of};
ghost use Rattle.exb_model.specs.Setup.{IsValid, NamesExternal};
ghost use Rattle.exb_model.specs.Tree.{external_ports};
ghost use Rattle.exb_make.specs.Draws.{generator_of};
ghost use Rattle.exb_make.specs.GeneratedInputs.{all_drawn, made};
ghost use Rattle.exb_make.specs.GeneratedParts.{drawn_of, read_of, IsAtExternal, IsWhole};
ghost use Rattle.exb_make.specs.GeneratedTree.{site_ports};

use crate::captures::{GeneratedCapture, captures};
use crate::commands::add_orders;
use crate::frames::{TimedFrame, add_frames};
use crate::laws::made_is_valid;
use crate::start::{add_memberships, add_pvids};
use crate::tree::{external_ports, setup};
use exb_model::command::Command;
use exb_model::list::List;
use exb_model::memory::NoMemory;
use exb_model::port::PortId;
use exb_model::setup::{Setup, Timed};
use rand_core::SeedableRng;
use rand_pcg::Lcg64Xsh32;
use std::alloc::Global;

/// An input that is made from a number.
#[derive(Drop)]
pub struct GeneratedInput {
    pub setup: Setup,
    /// None has a fate of its own.
    pub commands: List<Timed>,
    /// The capture of each external port, in port order.
    pub captures: Vec<GeneratedCapture>,
}

/// What is drawn.
#[derive(Drop)]
struct DrawnParts {
    start: List<Command>,
    commands: List<Timed>,
    arrived: Vec<TimedFrame>,
}

/// Draws all that is random, in order.
fn draw_all(alloc: Global, number: u64, places: &[PortId]) -> Result<DrawnParts, NoMemory>
    requires { places.now ≡ site_ports }
    ensures { IfOk result (λ drawn. drawn_of drawn ≡ all_drawn (generator_of number)) }
{
    let mut rng = Lcg64Xsh32::seed_from_u64(number);
    let mut start = List::new(alloc);
    add_memberships(&mut rng, places, &mut start)?;
    add_pvids(&mut rng, places, &mut start)?;
    let mut commands = List::new(alloc);
    add_orders(alloc, &mut rng, places, &mut commands)?;
    let mut arrived = Vec::new(alloc);
    add_frames(alloc, &mut rng, places, &mut arrived)?;
    Ok(DrawnParts {
        start,
        commands,
        arrived,
    })
}

/// The input of a number. The captures of the external ports are whole files, which a reader reads
/// as the records that arrive there.
pub fn make(alloc: Global, number: u64) -> Result<GeneratedInput, NoMemory>
    ensures valid { IfOk result (λ input. IsValid input.setup) }
    ensures setup { IfOk result (λ input. input.setup ≡ (made number).setup) }
    ensures commands { IfOk result (λ input. map given_by input.commands ≡ (made number).commands) }
    ensures no_fate { IfOk result (λ input. All (λ c. c.fate ≡ []) input.commands) }
    ensures named { IfOk result (λ input. All (λ c. NamesExternal (tree_of (made number)) c.command)
        input.commands) }
    ensures few { IfOk result (λ input. length input.commands ≡ 20) }
    ensures rising { IfOk result (λ input. AllPairs (λ a b. a.at ≤ b.at) input.commands) }

    ensures captures { IfOk result (λ input. map read_of input.captures.items
        ≡ map (λ q. (q, Ok ((made number).records q))) (external_ports (tree_of (made number)))) }
    ensures external { IfOk result (λ input. All (IsAtExternal (tree_of (made number)))
        input.captures.items) }
    ensures whole { IfOk result (λ input. All IsWhole input.captures.items) }
    ensures small { IfOk result (λ input. sum_by (λ c. length c.file.items) input.captures.items
        ≤ 2 ^ 22) }
{
    made_is_valid();
    let places = external_ports(alloc)?;
    let DrawnParts {
        start,
        commands,
        arrived,
    } = draw_all(alloc, number, places.as_slice())?;
    let captures = captures(alloc, arrived.as_slice(), places.as_slice())?;
    let setup = setup(alloc, start)?;
    Ok(GeneratedInput {
        setup,
        commands,
        captures,
    })
}
