//! Which frames pass (IEEE 802.1Q, clause 8.6.2), and with which priority.
ghost use Rattle.std.specs.Prelude.{◌≡◌, not, ◌||◌, is_some, option_copied, if◌then◌else◌, Some, None, IfSome};
ghost use Rattle.exb_model.specs.Configuration.{kind_in};
ghost use Rattle.exb_model.specs.Learning.{accepts_tagged, accepts_untagged};
ghost use Rattle.exb_config.specs.Tables.{bridge_of};
ghost use Rattle.exb_relay.specs.Sends.{pcp_of, dei_of};
ghost use Rattle.exb_relay.specs.SendsBySource.{claimed, is_let_in, AreMembers};

use exb_config::Config;
use exb_config::members::Members;
use exb_model::frame_kind::Seen;
use exb_model::port::PortId;
use exb_model::rules::Accept;
use exb_model::vlan::Vid;

fn accepts_tagged(accept: Accept) -> bool
    ensures { result ≡ accepts_tagged accept }
{
    accept != Accept::UntaggedOnly
}

fn accepts_untagged(accept: Accept) -> bool
    ensures { result ≡ accepts_untagged accept }
{
    accept != Accept::TaggedOnly
}

/// The VLAN, where the port accepts the kind of the frame.
fn if_accepted(accepted: bool, vid: Vid) -> Option<Vid>
    ensures { result ≡ (if accepted then Some vid else None) }
{
    if accepted { Some(vid) } else { None }
}

/// The VLAN of a frame of that kind at a port; None exactly where the port doesn't accept the kind.
pub(crate) fn claimed(config: &Config, port: PortId, seen: &Seen) -> Option<Vid>
    ensures { result ≡ claimed (bridge_of config.now) port seen.now }
{
    let rule = config.rule(port);
    match *seen {
        Seen::Plain | Seen::Priority { .. } => {
            if_accepted(accepts_untagged(rule.accept), rule.pvid)
        }
        Seen::Tagged { vid, .. } => if_accepted(accepts_tagged(rule.accept), vid),
        _ => None,
    }
}

/// Whether the port's filter lets in frames of a VLAN with these members.
fn lets_in(config: &Config, port: PortId, members: &Members) -> bool
    ensures { result ≡ (not ((bridge_of config.now).rule port).filter
        || is_some (kind_in members.now.tagged members.now.untagged port)) }
{
    !config.rule(port).filter || members.kind(port).is_some()
}

/// The members of a VLAN; None exactly where it isn't in the table, or the port's filter doesn't
/// let it in.
pub(crate) fn admit(config: &Config, port: PortId, vid: Vid) -> Option<&Members>
    ensures admitted { is_some (option_copied result) ≡ is_let_in (bridge_of config.now) port vid }
    ensures members { IfSome result (λ m. AreMembers (bridge_of config.now) vid m.now) }
{
    let members = config.members(vid)?;
    if lets_in(config, port, members) {
        Some(members)
    } else {
        None
    }
}

/// The PCP of a frame's VLAN tag, below 8, and 0 without one.
pub(crate) fn pcp_of(seen: &Seen) -> u8
    ensures { result ≡ pcp_of seen.now }
{
    match *seen {
        Seen::Priority { pcp, .. } | Seen::Tagged { pcp, .. } => pcp,
        _ => 0,
    }
}

/// The DEI of a frame's VLAN tag, false without one.
pub(crate) fn dei_of(seen: &Seen) -> bool
    ensures { result ≡ dei_of seen.now }
{
    match *seen {
        Seen::Priority { dei, .. } | Seen::Tagged { dei, .. } => dei,
        _ => false,
    }
}
