//! Frames that come to the bridge: they are ignored, or relayed and then learned from.
ghost use Rattle.std.specs.Prelude.{◌≡◌, ◌≤◌, [], true, length, IfOk, OnOk};
ghost use Rattle.exb_model.specs.EagerHistory.{is_relayed};
ghost use Rattle.exb_config.specs.Tables.{bridge_of};
ghost use Rattle.exb_learn.specs.Entries.{table_of};
ghost use Rattle.exb_learn.specs.Histories.{relay_call, after_any};
ghost use Rattle.exb_control.specs.ActiveConfigs.{bridge_in};
ghost use Rattle.exb_world_spec.specs.BridgeLearning.{taught_by};
ghost use Rattle.exb_bridge.specs.Sends.{sends_by, ingress_for, vid_in};

use arrayvec::ArrayVec;
use exb_config::Config;
use exb_control::ActiveConfig;
use exb_frame::{is_relayed_kind, source};
use exb_learn::Learned;
use exb_model::memory::NoMemory;
use exb_model::port::PortId;
use exb_relay::{Ingress, SendTo, relay};

/// What is made of a frame. Each one that comes fills it anew.
#[derive(Drop)]
pub struct Outgoing {
    /// What became of the frame at its port.
    pub ingress: Ingress,
    /// What is sent for it.
    pub sends: ArrayVec<SendTo, 256>,
}

impl Outgoing {
    /// Of no frame.
    pub(crate) fn new() -> Outgoing {
        Outgoing {
            ingress: Ingress::Dropped,
            sends: ArrayVec::new(),
        }
    }

    /// Takes out what was made of the frame before.
    #[inline(always)]
    fn empty(&mut self)
        ensures ingress { self.new.ingress ≡ Ingress.Dropped }
        ensures sends { self.new.sends.items ≡ [] }
    {
        self.ingress = Ingress::Dropped;
        self.sends.clear();
    }
}

/// Whether a frame that comes to a port is relayed: the port is present, and the frame isn't short,
/// long or reserved.
fn is_relayed(config: &Config, port: PortId, frame: &[u8]) -> bool
    ensures kind { result ≡ is_relayed (bridge_of config.now) port frame.now }
    ensures long { result ≡ true → 14 ≤ length frame.now }
{
    let is_kind = is_relayed_kind(frame);
    config.present(port) && is_kind
}

/// A frame that passes at a port teaches where its source is, if that is an individual address.
fn learn(learned: &mut Learned, port: PortId, frame: &[u8], ingress: &Ingress)
    requires frame { 12 ≤ length frame.now }
    requires room { 1 ≤ learned.old.spare }
    ensures { table_of learned.new ≡ after_any (relay_call port frame.now (vid_in ingress.now))
        (table_of learned.old) }
{
    if let Ingress::Passed { vid, .. } = *ingress {
        let address = source(frame);
        if !address.is_group() {
            learned.see(vid, address, port);
        }
    }
}

/// A frame comes; the answer is whether it is relayed. It is looked up before it is learned from.
pub(crate) fn relay_and_learn(
    active: &ActiveConfig,
    learned: &mut Learned,
    port: PortId,
    frame: &[u8],
    out: &mut Outgoing,
) -> Result<bool, NoMemory>
    ensures relayed { IfOk result (λ relayed. relayed
        ≡ is_relayed (bridge_in active.now) port frame.now) }
    ensures sends { OnOk result (out.new.sends.items
        ≡ sends_by active.now learned.old port frame.now) }
    ensures ingress { OnOk result (out.new.ingress ≡ ingress_for (bridge_in active.now) port
        frame.now) }
    ensures table { OnOk result (table_of learned.new
        ≡ taught_by (bridge_in active.now) port frame.now (table_of learned.old)) }
{
    out.empty();
    if !is_relayed(active.config(), port, frame) {
        return Ok(false);
    }
    learned.reserve()?;
    active.is_active_config();
    out.ingress = relay(
        active.tree(),
        active.config(),
        learned,
        active.spaces(),
        port,
        frame,
        &mut out.sends,
    );
    learn(learned, port, frame, &out.ingress);
    Ok(true)
}
