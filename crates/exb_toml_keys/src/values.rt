//! Reading one value.
ghost use Rattle.std.specs.Prelude.{◌≡◌, ◌≤◌, IfOk};
ghost use Rattle.std.specs.Result.{result_map_both};
ghost use Rattle.toml.specs.View.{view, items_view};
ghost use Rattle.exb_model.specs.Setup.{IsAgeing};
ghost use Rattle.exb_toml_keys.specs.Keys.{number, flag, text, port, address, accept, kind, ageing, are_texts, word_in};

use crate::faults::KeyFault;
use crate::text_values;
use crate::text_values::PortPattern;
use exb_model::address::Mac;
use exb_model::port::PortId;
use exb_model::rules::Accept;
use exb_model::vlan::Kind;
use toml::Value;

/// A whole number from low to high.
#[tactic(auto, unfolding(crate::specs::Keys::number))]
pub(crate) fn number(value: &Value, low: u32, high: u32) -> Result<u32, KeyFault>
    ensures value { result ≡ number low high (view value.now) }
    ensures most { IfOk result (λ n. n ≤ high) }
    ensures least { IfOk result (λ n. low ≤ n) }
{
    match value {
        Value::Integer(z) => match u32::try_from(*z) {
            Ok(n) if low <= n && n <= high => Ok(n),
            _ => Err(KeyFault::Range),
        },
        _ => Err(KeyFault::Kind),
    }
}

#[tactic(auto, unfolding(crate::specs::Keys::flag))]
pub(crate) fn flag(value: &Value) -> Result<bool, KeyFault>
    ensures { result ≡ flag (view value.now) }
{
    match value {
        Value::Boolean(b) => Ok(*b),
        _ => Err(KeyFault::Kind),
    }
}

#[tactic(auto, unfolding(crate::specs::Keys::text))]
pub(crate) fn text(value: &Value) -> Result<&str, KeyFault>
    ensures { result_map_both (λ s. s.now) (λ e. e) result ≡ text (view value.now) }
{
    match value {
        Value::String(s) => Ok(s.as_str()),
        _ => Err(KeyFault::Kind),
    }
}

#[tactic(auto, unfolding(crate::specs::Keys::port))]
pub(crate) fn port(value: &Value) -> Result<PortId, KeyFault>
    ensures { result ≡ port (view value.now) }
{
    match value {
        Value::String(s) => match text_values::port_of(s.as_bytes()) {
            Some(port) => Ok(port),
            None => Err(KeyFault::Name),
        },
        _ => Err(KeyFault::Kind),
    }
}

#[tactic(auto, unfolding(crate::specs::Keys::address))]
pub(crate) fn address(value: &Value) -> Result<Mac, KeyFault>
    ensures { result ≡ address (view value.now) }
{
    match value {
        Value::String(s) => match text_values::address_of(s.as_bytes()) {
            Some(address) => Ok(address),
            None => Err(KeyFault::Name),
        },
        _ => Err(KeyFault::Kind),
    }
}

#[tactic(auto, unfolding(crate::specs::Keys::accept))]
pub(crate) fn accept(value: &Value) -> Result<Accept, KeyFault>
    ensures { result ≡ accept (view value.now) }
{
    match value {
        Value::String(s) => match text_values::accept_of(s.as_str()) {
            Some(accept) => Ok(accept),
            None => Err(KeyFault::Name),
        },
        _ => Err(KeyFault::Kind),
    }
}

#[tactic(auto, unfolding(crate::specs::Keys::kind))]
pub(crate) fn kind(value: &Value) -> Result<Kind, KeyFault>
    ensures { result ≡ kind (view value.now) }
{
    match value {
        Value::String(s) => match text_values::kind_of(s.as_str()) {
            Some(kind) => Ok(kind),
            None => Err(KeyFault::Name),
        },
        _ => Err(KeyFault::Kind),
    }
}

/// 0, or 10 to 1,000,000.
#[tactic(auto, unfolding(crate::specs::Keys::ageing))]
pub(crate) fn ageing(value: &Value) -> Result<u32, KeyFault>
    ensures value { result ≡ ageing (view value.now) }
    ensures range { IfOk result IsAgeing }
{
    match number(value, 0, 1_000_000) {
        Ok(n) if n == 0 || n >= 10 => Ok(n),
        Ok(_) => Err(KeyFault::Range),
        Err(fault) => Err(fault),
    }
}

/// Whether each item is a text.
pub(crate) fn are_texts(items: &[Value]) -> bool
    ensures { result ≡ are_texts (items_view items.now) }
{
    for item in items {
        if !item.is_str() {
            return false;
        }
    }
    true
}

/// The word for ports that an item is.
pub(crate) fn word_in(item: &Value) -> Option<PortPattern>
    ensures { result ≡ word_in (view item.now) }
{
    match item {
        Value::String(s) => text_values::word_of(s.as_bytes()),
        _ => None,
    }
}
