//! Which hearers lie below a port of the bridge.
ghost use Rattle.std.specs.Prelude.{◌≡◌, ℕ, ◌+◌, ◌*◌, ◌&&◌, ◌==◌, ◌<◌, not, true, false, if◌then◌else◌};
ghost use Rattle.std.specs.Int.{bit_at};
ghost use Rattle.exb_model.specs.Masks.{bits_of};
ghost use Rattle.exb_model.specs.Ports.{port_in};
ghost use Rattle.exb_model.specs.Refusals.{is_empty_set};
ghost use Rattle.exb_model.specs.Tree.{is_extender, is_external, is_under, trunk};
ghost use Rattle.exb_relay.specs.SendsBySource.{is_hearer, set_below};

use crate::hearers::Hearers;
use exb_model::port_set::PortSet;
use exb_model::tree::Tree;
use exb_model::vlan::Kind;

/// The hearers of a kind at an extender, where it lies below a port of the bridge.
fn mask_below(tree: &Tree, bridge_port: u8, hearers: &Hearers, kind: Kind, extender: u8) -> u64
    requires extender { is_extender tree.now extender ≡ true }
    requires range { extender < 65 }
    ensures { result ≡ (if trunk tree.now extender + 1 == bridge_port
        then bits_of (λ j. is_hearer hearers.now kind (64 * extender + j)) 64 else 0) }
{
    if tree.trunk(extender) == bridge_port {
        hearers.mask(kind, extender)
    } else {
        0
    }
}

/// Whether a hearer of a kind lies below a port of the bridge, `b1` to `b64` as 1 to 64.
pub(crate) fn has_below(tree: &Tree, bridge_port: u8, hearers: &Hearers, kind: Kind) -> bool
    requires external { (q : ℕ) → is_hearer hearers.now kind q ≡ true → is_external tree.now q
        ≡ true }
    ensures { (k : ℕ) → bridge_port ≡ k + 1 → result
        ≡ not (is_empty_set (set_below tree.now k (is_hearer hearers.now kind))) }
{
    tree.is_tree();
    for extender in tree.order() {
        if mask_below(tree, bridge_port, hearers, kind, *extender) != 0 {
            return true;
        }
    }
    false
}

/// The hearers of a kind that lie below a port of the bridge.
pub(crate) fn below(tree: &Tree, bridge_port: u8, hearers: &Hearers, kind: Kind) -> PortSet
    requires external { (q : ℕ) → is_hearer hearers.now kind q ≡ true → is_external tree.now q
        ≡ true }
    ensures { (k q : ℕ) → bridge_port ≡ k + 1 → port_in result q
        ≡ (is_hearer hearers.now kind q && is_under tree.now k q) }
{
    tree.is_tree();
    let mut words = [0u64; 65];
    for extender in tree.order() {
        words[*extender as usize] = mask_below(tree, bridge_port, hearers, kind, *extender);
    }
    PortSet { words }
}

/// The ports of the bridge at which a frame may leave or go down, bit k for port k counted from 0:
/// those that are hearers, and those on which an extender hangs.
pub(crate) fn ways(tree: &Tree, hearers: &Hearers) -> u64
    ensures local { (kind : Kind) → (k : ℕ) → k < 64 → (bit_at result k == 1) ≡ false
        → is_hearer hearers.now kind k ≡ false }
    ensures deep { (k q : ℕ) → (bit_at result k == 1) ≡ false → is_under tree.now k q ≡ false }
{
    tree.is_tree();
    let tagged = hearers.mask(Kind::Tagged, 0);
    let untagged = hearers.mask(Kind::Untagged, 0);
    let mut ways = tagged | untagged;
    for extender in tree.order() {
        ways |= 1 << (tree.trunk(*extender) - 1);
    }
    ways
}
