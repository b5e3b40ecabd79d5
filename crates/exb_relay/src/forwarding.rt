//! What the bridge sends for a frame.
ghost use Rattle.std.specs.Prelude.{◌≡◌, ◌≤◌, ◌<◌, ◌+◌, ◌++◌, ℕ, true, [], Some};
ghost use Rattle.arrayvec.specs.ArrayVec.{array_vec_len};
ghost use Rattle.exb_model.specs.Frames.{kind_of};
ghost use Rattle.exb_model.specs.Tree.{is_external, is_cascade};
ghost use Rattle.exb_model.specs.Ports.{port_in};
ghost use Rattle.exb_model.specs.Learning.{passes};
ghost use Rattle.exb_config.specs.Tables.{bridge_of};
ghost use Rattle.exb_learn.specs.Entries.{look_of};
ghost use Rattle.exb_relay.specs.Spaces.{numbers_of, HasSpaces, AreExternal};
ghost use Rattle.exb_relay.specs.Sends.{pcp_of, dei_of, ingress_at, ingress_of, sends_in, sends_of};
ghost use Rattle.exb_relay.specs.SendsBySource.{AreMembers, IsSource, is_hearer, ingress_for, set_below, set_word, kind_at, member_in, member_sends, member_list, port_sends, learned_sends};

use crate::choice::learned_port;
use crate::hearers::Hearers;
use crate::hearers_below::{below, has_below, ways};
use crate::ingress::{admit, claimed, dei_of, pcp_of};
use crate::members::{every_port, kind_at};
use crate::send::{Ingress, SendTo};
use crate::send_list::{send_at_once, send_word};
use crate::source::{Passed, Source, Uplink};
use arrayvec::ArrayVec;
use exb_config::Config;
use exb_frame::classify::classify;
use exb_frame::destination;
use exb_learn::Learned;
use exb_model::frame_kind::Seen;
use exb_model::port::PortId;
use exb_model::port_set::PortSet;
use exb_model::role::Role;
use exb_model::tree::Tree;
use exb_model::vlan::Kind;
use exb_numbers::Spaces;

/// The way up of an external port of the tree; none for a port of the bridge.
fn uplink_of(tree: &Tree, spaces: &Spaces, port: PortId) -> Option<Uplink>
    requires external { is_external tree.now port ≡ true }
    requires spaces { HasSpaces tree.now spaces.now }
    ensures { (k : ℕ) → ingress_for result k ≡ ingress_at tree.now (numbers_of spaces.now) port k }
{
    tree.is_tree();
    let extender = port.device();
    if extender == 0 {
        return None;
    }
    let trunk = tree.trunk(extender);
    let channel = spaces.channels(trunk).of(port).unwrap_or(0);
    Some(Uplink { trunk, channel })
}

/// One word to the group of the hearers of a kind that lie below a cascade port of the bridge,
/// counted from 0.
fn send_to_set(
    tree: &Tree,
    spaces: &Spaces,
    source: &Source,
    hearers: &Hearers,
    place: u8,
    kind: Kind,
    sends: &mut ArrayVec<SendTo, 256>,
)
    requires place { place < 64 }
    requires cascade { is_cascade tree.now place ≡ true }
    requires spaces { HasSpaces tree.now spaces.now }
    requires external { (q : ℕ) → is_hearer hearers.now kind q ≡ true → is_external tree.now q
        ≡ true }
    requires room { array_vec_len sends.old < 256 }
    ensures items { sends.new.items ≡ sends.old.items
        ++ set_word (numbers_of spaces.now) source.now place kind
        (set_below tree.now place (is_hearer hearers.now kind)) }
    ensures few { array_vec_len sends.new ≤ array_vec_len sends.old + 1 }
{
    tree.is_tree();
    if has_below(tree, place + 1, hearers, kind) {
        let set = below(tree, place + 1, hearers, kind);
        let group = spaces.groups(place + 1).find(&set);
        send_word(sends, place, source, kind, group);
    }
}

/// The sends at a port of the bridge, counted from 0, for the hearers that are there or below it.
fn send_at(
    tree: &Tree,
    spaces: &Spaces,
    source: &Source,
    hearers: &Hearers,
    place: u8,
    sends: &mut ArrayVec<SendTo, 256>,
)
    requires place { place < 64 }
    requires spaces { HasSpaces tree.now spaces.now }
    requires tagged { (q : ℕ) → is_hearer hearers.now Kind.Tagged q ≡ true
        → is_external tree.now q ≡ true }
    requires untagged { (q : ℕ) → is_hearer hearers.now Kind.Untagged q ≡ true
        → is_external tree.now q ≡ true }
    requires room { array_vec_len sends.old + 2 ≤ 256 }
    ensures items { sends.new.items ≡ sends.old.items
        ++ member_sends tree.now (numbers_of spaces.now) source.now
        (is_hearer hearers.now Kind.Tagged) (is_hearer hearers.now Kind.Untagged) place }
    ensures few { array_vec_len sends.new ≤ array_vec_len sends.old + 2 }
{
    tree.is_tree();
    let port = PortId::at(0, place);
    match tree.role(port) {
        Role::Unknown => {}
        Role::External => send_at_once(sends, place, hearers.target(source.port, port)),
        Role::Cascade { .. } => {
            send_to_set(tree, spaces, source, hearers, place, Kind::Tagged, sends);
            send_to_set(tree, spaces, source, hearers, place, Kind::Untagged, sends);
        }
    }
}

/// The sends for the hearers of a frame, in the order of bridge ports.
fn send_to_hearers(
    tree: &Tree,
    spaces: &Spaces,
    source: &Source,
    hearers: &Hearers,
    sends: &mut ArrayVec<SendTo, 256>,
)
    requires spaces { HasSpaces tree.now spaces.now }
    requires tagged { (q : ℕ) → is_hearer hearers.now Kind.Tagged q ≡ true
        → is_external tree.now q ≡ true }
    requires untagged { (q : ℕ) → is_hearer hearers.now Kind.Untagged q ≡ true
        → is_external tree.now q ≡ true }
    requires empty { sends.old.items ≡ [] }
    ensures { sends.new.items
        ≡ member_list tree.now (numbers_of spaces.now) source.now
        (is_hearer hearers.now Kind.Tagged) (is_hearer hearers.now Kind.Untagged) }
{
    let mut left = ways(tree, hearers);
    'ports: while left != 0 {
        let place = left.trailing_zeros() as u8;
        left &= !(1 << place);
        send_at(tree, spaces, source, hearers, place, sends);
    }
}

/// The send for a port that gets the frame in a kind.
fn send_to_port(
    tree: &Tree,
    spaces: &Spaces,
    source: &Source,
    port: PortId,
    kind: Kind,
    sends: &mut ArrayVec<SendTo, 256>,
)
    requires spaces { HasSpaces tree.now spaces.now }
    requires external { is_external tree.now port ≡ true }
    requires empty { sends.old.items ≡ [] }
    ensures { sends.new.items ≡ port_sends tree.now (numbers_of spaces.now) source.now port kind }
{
    tree.is_tree();
    let number = port.number();
    if number < 64 {
        send_at_once(sends, number as u8, Some(kind));
    } else {
        let trunk = tree.trunk(port.device());
        let channel = spaces.channels(trunk).of(port);
        send_word(sends, trunk - 1, source, kind, channel);
    }
}

/// The sends for chosen ports.
fn send_to_chosen(
    tree: &Tree,
    config: &Config,
    spaces: &Spaces,
    passed: &Passed,
    chosen: &PortSet,
    sends: &mut ArrayVec<SendTo, 256>,
)
    requires external { AreExternal tree.now (bridge_of config.now) }
    requires spaces { HasSpaces tree.now spaces.now }
    requires members { AreMembers (bridge_of config.now) passed.now.vid passed.now.members.now }
    requires empty { sends.old.items ≡ [] }
    ensures { let source = passed.now.source in let v = passed.now.vid in
        sends.new.items ≡ member_list tree.now (numbers_of spaces.now) source
        (member_in (bridge_of config.now) source.port v (port_in chosen.now) Kind.Tagged)
        (member_in (bridge_of config.now) source.port v (port_in chosen.now) Kind.Untagged) }
{
    let hearers = Hearers {
        config,
        members: passed.members,
        chosen,
        isolated: config.rule(passed.source.port).isolated,
    };
    send_to_hearers(tree, spaces, &passed.source, &hearers, sends);
}

/// The send for a learned port, if it gets the frame.
fn send_to_learned(
    tree: &Tree,
    config: &Config,
    spaces: &Spaces,
    passed: &Passed,
    port: PortId,
    sends: &mut ArrayVec<SendTo, 256>,
)
    requires external { AreExternal tree.now (bridge_of config.now) }
    requires spaces { HasSpaces tree.now spaces.now }
    requires members { AreMembers (bridge_of config.now) passed.now.vid passed.now.members.now }
    requires empty { sends.old.items ≡ [] }
    ensures { sends.new.items ≡ learned_sends tree.now (numbers_of spaces.now) passed.now.source
        port
        (kind_at (bridge_of config.now) passed.now.source.port passed.now.vid port) }
{
    if let Some(kind) = kind_at(config, passed, port) {
        send_to_port(tree, spaces, &passed.source, port, kind, sends);
    }
}

/// All sends for a frame that passed.
fn send_all(
    tree: &Tree,
    config: &Config,
    learned: &Learned,
    spaces: &Spaces,
    passed: &Passed,
    frame: &[u8],
    sends: &mut ArrayVec<SendTo, 256>,
)
    requires present { (bridge_of config.now).present passed.now.source.port ≡ true }
    requires external { AreExternal tree.now (bridge_of config.now) }
    requires spaces { HasSpaces tree.now spaces.now }
    requires members { AreMembers (bridge_of config.now) passed.now.vid passed.now.members.now }
    requires source { IsSource tree.now (numbers_of spaces.now) passed.now.source.port frame.now
        passed.now.source }
    requires passes { passes (bridge_of config.now) passed.now.source.port frame.now
        ≡ Some passed.now.vid }
    requires empty { sends.old.items ≡ [] }
    ensures { sends.new.items ≡ sends_in tree.now (bridge_of config.now) (look_of learned.now)
        (numbers_of spaces.now)
        passed.now.source.port frame.now (Some passed.now.vid) }
{
    tree.is_tree();
    let address = destination(frame);
    match config.entry(passed.vid, address) {
        Some(ports) => send_to_chosen(tree, config, spaces, passed, ports, sends),
        None => match learned_port(learned, passed.vid, address) {
            Some(port) => send_to_learned(tree, config, spaces, passed, port, sends),
            None => send_to_chosen(tree, config, spaces, passed, &every_port(), sends),
        },
    }
}

/// Where a frame of an external port of the tree comes from.
fn source_of(tree: &Tree, spaces: &Spaces, port: PortId, frame: &[u8], seen: &Seen) -> Source
    requires external { is_external tree.now port ≡ true }
    requires spaces { HasSpaces tree.now spaces.now }
    requires seen { seen.now ≡ kind_of frame.now }
    ensures source { IsSource tree.now (numbers_of spaces.now) port frame.now result }
    ensures port { result.port ≡ port }
    ensures pcp { result.pcp ≡ pcp_of seen.now }
    ensures dei { result.dei ≡ dei_of seen.now }
{
    Source {
        port,
        uplink: uplink_of(tree, spaces, port),
        pcp: pcp_of(seen),
        dei: dei_of(seen),
    }
}

/// What the bridge makes of a frame at a present port, and all that it sends for it. The frame
/// isn't learned. Each present port is an external port of the tree, and the spaces are those of
/// its cascade ports. Where the spaces hold a group for each set of the configuration and a channel
/// for each present port of an extender, as before, between and after the steps of a change, all
/// targets are reached (`sends_leave_as_flat`).
pub fn relay(
    tree: &Tree,
    config: &Config,
    learned: &Learned,
    spaces: &Spaces,
    port: PortId,
    frame: &[u8],
    sends: &mut ArrayVec<SendTo, 256>,
) -> Ingress
    requires present { (bridge_of config.now).present port ≡ true }
    requires external { AreExternal tree.now (bridge_of config.now) }
    requires spaces { HasSpaces tree.now spaces.now }
    ensures ingress { result ≡ ingress_of (bridge_of config.now) port frame.now }
    ensures sends { sends.new.items ≡ sends_of tree.now (bridge_of config.now) (look_of learned.now)
        (numbers_of spaces.now) port frame.now }
{
    sends.clear();
    let seen = classify(frame);
    let Some(vid) = claimed(config, port, &seen) else {
        return Ingress::Dropped;
    };
    let Some(members) = admit(config, port, vid) else {
        return Ingress::Dropped;
    };
    let passed = Passed {
        source: source_of(tree, spaces, port, frame, &seen),
        vid,
        members,
    };
    send_all(tree, config, learned, spaces, &passed, frame, sends);
    Ingress::Passed {
        vid,
        pcp: passed.source.pcp,
        dei: passed.source.dei,
    }
}
