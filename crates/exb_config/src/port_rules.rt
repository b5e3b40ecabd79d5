//! The rules of each port.
ghost use Rattle.std.specs.Prelude.{◌≡◌, ℕ, ◌+◌, ◌*◌, ◌==◌, ◌<◌, length, if◌then◌else◌, IfOk};
ghost use Rattle.exb_model.specs.Masks.{bits_of};
ghost use Rattle.exb_model.specs.Ports.{port_in};
ghost use Rattle.exb_model.specs.Configuration.{default_rule};
ghost use Rattle.exb_model.specs.declared.rules.PortRule.{PortRule};
ghost use Rattle.exb_config.specs.Rows.{rule_of};

use exb_model::memory::NoMemory;
use exb_model::port::{PORTS, PortId};
use exb_model::port_set::PortSet;
use exb_model::rules::{Accept, PortRule};
use exb_model::vlan::Vid;
use std::alloc::Global;
use std::marker::Model;

/// A rule for each port, and the set of the isolated ones.
#[derive(Drop)]
pub struct PortRules {
    rules: Vec<PortRule>,
    isolated: PortSet,
}

impl Model for PortRules {
    ghost use Rattle.std.specs.Prelude.{◌≡◌, ℕ, List, length};
    ghost use Rattle.exb_model.specs.declared.rules.PortRule.{PortRule};
    ghost use Rattle.exb_model.specs.Ports.{port_in};

    ghost Value = { List PortRule };

    ghost use Rattle.exb_config.specs.Rows.{rule_of};

    ghost view = { λ r. r.rules.items };

    ghost invariant = { λ r. (length r.rules.items ≡ 4160)
        × ((q : ℕ) → port_in r.isolated q ≡ (rule_of r.rules.items q).isolated) };
}

// So many rules as they are at the start.
fn first_rules(alloc: Global, count: usize) -> Result<Vec<PortRule>, NoMemory>
    ensures many { IfOk result (λ made. length made.items ≡ count) }
    ensures rules { IfOk result (λ made. (q : ℕ) → rule_of made.items q ≡ default_rule) }
{
    let rule = PortRule {
        pvid: Vid::default(),
        accept: Accept::All,
        filter: false,
        isolated: false,
    };
    Ok(Vec::from_elem(alloc, rule, count)?)
}

impl PortRules {
    /// PVID 1, all types, no filtering, no port isolated.
    pub fn new(alloc: Global) -> Result<PortRules, NoMemory>
        ensures { IfOk result (λ made. (q : ℕ) → rule_of made q ≡ default_rule) }
    {
        Ok(PortRules {
            rules: first_rules(alloc, PORTS as usize)?,
            isolated: PortSet::empty(),
        })
    }

    /// Equal rules.
    pub fn copy(&self) -> Result<PortRules, NoMemory>
        ensures { IfOk result (λ made. made ≡ self.now) }
    {
        Ok(PortRules {
            rules: self.rules.clone()?,
            isolated: self.isolated,
        })
    }

    /// The rule of a port.
    pub fn rule(&self, port: PortId) -> PortRule
        ensures { result ≡ rule_of self.now port }
    {
        self.rules[port.number() as usize]
    }

    /// The isolated ports.
    pub fn isolated(&self) -> PortSet
        ensures { (q : ℕ) → port_in result q ≡ (rule_of self.now q).isolated }
    {
        self.isolated
    }

    /// The isolated ports of a device, 0 for the bridge: bit k - 1 is its port k.
    pub fn isolated_mask(&self, device: u8) -> u64
        requires { device < 65 }
        ensures { result ≡ bits_of (λ j. (rule_of self.now (64 * device + j)).isolated) 64 }
    {
        self.isolated.mask(device)
    }

    /// Sets the rule of a port.
    pub fn put(&mut self, port: PortId, rule: PortRule)
        ensures { (q : ℕ) → rule_of self.new q ≡ (if q == port then rule else rule_of self.old q) }
    {
        let is_isolated = rule.isolated;
        self.rules[port.number() as usize] = rule;
        if is_isolated {
            self.isolated.insert(port);
        } else {
            self.isolated.remove(port);
        }
    }
}
