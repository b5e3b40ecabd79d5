//! What a run writes under a prefix: a capture for each external port of a tree, and the other
//! kinds that are asked for.
ghost use Rattle.std.specs.Prelude.{◌≡◌, ◌<◌, ◌≤◌, ◌+◌, ◌++◌, ◌∷◌, [], if◌then◌else◌, IfOk, OnOk};
ghost use Rattle.exb_model.specs.Setup.{IsValid, shape_of};
ghost use Rattle.exb_model.specs.Tree.{IsTree};
ghost use Rattle.exb_cli.specs.Kinds.{place_behind};
ghost use Rattle.exb_outputs.specs.Manifests.{ArePlaced, kind_at, output_count, place_in, port_at, port_count};

use exb_cli::{Options, OutputKinds};
use exb_journal::OutputKind;
use exb_model::memory::NoMemory;
use exb_model::port::{PORTS, PortId};
use exb_model::setup::Setup;
use exb_model::text::Text;
use exb_model::tree::Tree;
use std::alloc::Global;
use std::marker::Model;

/// The external ports of a tree, and the place of each among them.
#[derive(Drop)]
struct PortIndex {
    /// The external ports, in port order.
    ports: Vec<PortId>,
    /// How many of them come before a port, by its number.
    places: Vec<u16>,
}

/// What a run writes: the capture of each external port of a tree in port order, and then the other
/// kinds that are asked for, in their order.
pub struct Manifest {
    tree: Tree,
    places: PortIndex,
    /// What each name of a file begins with.
    prefix: Text,
    /// What is asked for, and the kinds behind the captures.
    kinds: OutputKinds,
}

impl Drop for Manifest {
    fn drop(self) {
        let Manifest {
            tree: _,
            places: _,
            prefix: _,
            kinds: _,
        } = self;
    }
}

impl Model for Manifest {
    ghost use Rattle.exb_outputs.specs.Manifests.{ArePlaced, Listed};

    ghost Value = { Listed };

    ghost view = { λ p. record { tree = p.tree; prefix = p.prefix; options = p.kinds } };

    ghost invariant = { λ p. ArePlaced p.tree p.places.ports.items p.places.places.items };
}

/// Puts a port behind others, where it is wanted.
fn put_if(ports: &mut Vec<PortId>, wanted: bool, port: PortId) -> Result<(), NoMemory>
    ensures { OnOk result (ports.new.items ≡ ports.old.items
        ++ (if wanted then port ∷ [] else [])) }
{
    if wanted {
        ports.push(port)?;
    }
    Ok(())
}

/// The external ports of a tree with their places.
fn places_of(alloc: Global, tree: &Tree) -> Result<PortIndex, NoMemory>
    ensures { IfOk result (λ p. ArePlaced tree.now p.ports.items p.places.items) }
{
    let mut ports = Vec::new(alloc);
    let mut places = Vec::new(alloc);
    'ports: for number in 0..PORTS {
        let port = PortId::new(number).unwrap();
        places.push(ports.len() as u16)?;
        put_if(&mut ports, tree.is_external(port), port)?;
    }
    Ok(PortIndex { ports, places })
}

impl Manifest {
    /// What a run of a setup writes under a prefix.
    pub fn new(
        alloc: Global,
        setup: &Setup,
        prefix: &str,
        options: Options,
    ) -> Result<Manifest, NoMemory>
        requires { IsValid setup.now }
        ensures tree { IfOk result (λ manifest. manifest.tree ≡ shape_of setup.now) }
        ensures prefix { IfOk result (λ manifest. manifest.prefix ≡ prefix.now) }
        ensures options { IfOk result (λ manifest. manifest.options ≡ options) }
    {
        let tree = Tree::new(alloc, setup)?;
        let places = places_of(alloc, &tree)?;
        let prefix = Text::from_str(alloc, prefix)?;
        let kinds = OutputKinds::new(alloc, options)?;
        Ok(Manifest {
            tree,
            places,
            prefix,
            kinds,
        })
    }

    /// That its tree is one, as a fact for whoever calls it. It does nothing.
    pub fn is_tree(&self)
        ensures { IsTree self.now.tree }
    {
        self.tree.is_tree();
    }

    /// How many captures there are, at most 4,160.
    #[tactic(auto, using(crate::proofs::PortPlaces::few_external))]
    pub fn count(&self) -> u16
        ensures value { result ≡ port_count self.now }
        ensures range { result ≤ 4160 }
    {
        self.places.ports.len() as u16
    }

    /// How many files there are.
    pub(crate) fn outputs(&self) -> u16
        ensures value { result ≡ output_count self.now }
        ensures range { result ≤ 4416 }
    {
        self.count() + self.kinds.count()
    }

    /// What is asked for.
    pub fn options(&self) -> Options
        ensures { result ≡ self.now.options }
    {
        self.kinds.options()
    }

    /// The kind of file `at`, counted from 0.
    pub(crate) fn kind(&self, at: u16) -> OutputKind
        requires { at < output_count self.now }
        ensures { result ≡ kind_at self.now at }
    {
        let count = self.count();
        if at < count {
            OutputKind::Capture(self.port(at))
        } else {
            self.kinds.kind(at - count)
        }
    }

    /// The place of the file of a kind that is no capture.
    #[inline(always)]
    pub(crate) fn place_behind(&self, kind: OutputKind) -> u16
        ensures value { result ≡ port_count self.now + place_behind self.now.options kind }
        ensures range { result ≤ 4416 }
    {
        self.count() + self.kinds.place(kind)
    }

    /// The port of capture `at`, counted from 0.
    pub fn port(&self, at: u16) -> PortId
        requires { at < port_count self.now }
        ensures { result ≡ port_at self.now at }
    {
        self.places.ports[at as usize]
    }

    /// The place of a port's capture.
    #[inline(always)]
    pub(crate) fn place(&self, port: PortId) -> u16
        ensures { result ≡ place_in self.now.tree port }
    {
        self.places.places[port.number() as usize]
    }

    /// What each name of a file begins with.
    pub(crate) fn prefix(&self) -> &str
        ensures { result.now ≡ self.now.prefix }
    {
        self.prefix.as_str()
    }
}
