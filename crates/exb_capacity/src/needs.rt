//! What a setup needs.
ghost use Rattle.std.specs.Prelude.{◌≡◌, IfOk, string_bytes};
ghost use Rattle.exb_model.specs.Setup.{shape_of, IsValid, limits_of};
ghost use Rattle.exb_capacity.specs.NeededNumbers.{needs_of};

use crate::all_ports_present::opened;
use crate::channels::channels;
use crate::sets::sets;
use exb_model::memory::NoMemory;
use exb_model::setup::Setup;
use exb_model::tree::Tree;
use std::alloc::Global;

/// What the fullest cascade port of the bridge needs where all external ports are present; 0
/// without extenders.
#[derive(Clone, Copy)]
pub struct Needs {
    /// Channels: one for each cascade port and each external port of the extenders below it.
    pub channels: u64,
    /// Sets of ports, each of which wants a group.
    pub sets: u64,
}

/// What a setup with this tree needs. The configuration is let go of by one call, whatever came,
/// which is cheap to prove.
fn needs_with(alloc: Global, tree: &Tree, setup: &Setup) -> Result<Needs, NoMemory>
    requires tree { tree.now ≡ shape_of setup.now }
    requires valid { IsValid setup.now }
    ensures { IfOk result (λ needs. needs ≡ needs_of setup.now) }
{
    let config = opened(alloc, tree, setup)?;
    let sets = sets(alloc, tree, &config);
    drop(config);
    Ok(Needs {
        channels: channels(tree),
        sets: sets?,
    })
}

impl Needs {
    ghost use Rattle.exb_capacity.specs.Lines.{lines_of};

    /// What a setup needs.
    pub fn of(alloc: Global, setup: &Setup) -> Result<Needs, NoMemory>
        requires { IsValid setup.now }
        ensures { IfOk result (λ needs. needs ≡ needs_of setup.now) }
    {
        let tree = Tree::new(alloc, setup)?;
        needs_with(alloc, &tree, setup)
    }

    /// The two lines that say what is needed and how much of it a setup has, each with its newline.
    #[tactic(auto, unfolding(crate::specs::Lines::lines_of))]
    pub fn lines(&self, alloc: Global, setup: &Setup) -> Result<String, NoMemory>
        ensures { IfOk result (λ lines. string_bytes lines
            ≡ lines_of self.now (limits_of setup.now)) }
    {
        let Needs { channels, sets } = *self;
        let all_channels = setup.channels;
        let all_groups = setup.groups;
        Ok(format!(in alloc;
            "channels {channels} of {all_channels}\nsets {sets} of {all_groups}\n"
        )?)
    }
}
