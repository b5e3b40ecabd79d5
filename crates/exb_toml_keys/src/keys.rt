//! Reading the value at a key of a table.
ghost use Rattle.std.specs.Prelude.{◌≡◌, ◌≤◌, ◌+◌, ◌++◌, IfOk, None, Some, [], option_map, length, if◌then◌else◌};
ghost use Rattle.std.specs.Option.{ForSome};
ghost use Rattle.toml.specs.Data.{get_member};
ghost use Rattle.toml.specs.View.{view, items_view, table_view};
ghost use Rattle.exb_model.specs.Setup.{IsAgeing};
ghost use Rattle.exb_toml_keys.specs.Faults.{Gives, place_text};
ghost use Rattle.exb_toml_keys.specs.Keys.{number, flag, text, port, address, accept, kind, ageing, seconds, fate, words, words_of, named, placed, key_at};

use crate::faults::{KeyFault, TopoFault};
use crate::key_path::KeyPath;
use crate::text_values::PortPattern;
use crate::{text_values, values};
use exb_model::address::Mac;
use exb_model::list::List;
use exb_model::port::PortId;
use exb_model::rules::Accept;
use exb_model::setup::Verdict;
use exb_model::text::Text;
use exb_model::vlan::{Kind, Vid};
use std::alloc::Global;
use toml::{Table, Value};

/// The value at a key.
pub fn member<'a>(table: &'a Table, key: &str) -> Option<&'a Value>
    ensures { option_map (λ v. view v.now) result ≡ get_member key.now (table_view table.now) }
{
    table.get(key)
}

/// The whole number at a key, from the first to the second of a range; where the key is absent, the
/// default or Missing.
pub fn number_key(
    alloc: Global,
    place: KeyPath,
    table: &Table,
    key: &str,
    range: (u32, u32),
    default: Option<u32>,
) -> Result<u32, TopoFault>
    requires { ForSome default (λ n. (range.0 ≤ n) × (n ≤ range.1)) }
    ensures value { Gives result (key_at (number range.0 range.1) default (place_text place) key.now
        (table_view table.now)) }
    ensures most { IfOk result (λ n. n ≤ range.1) }
    ensures least { IfOk result (λ n. range.0 ≤ n) }
{
    let (low, high) = range;
    match member(table, key) {
        Some(value) => match values::number(value, low, high) {
            Ok(n) => Ok(n),
            Err(fault) => Err(place.fault(alloc, key, fault)),
        },
        None => match default {
            Some(n) => Ok(n),
            None => Err(place.fault(alloc, key, KeyFault::Missing)),
        },
    }
}

/// The VLAN at a key, 1 to 4094; where the key is absent, the default or Missing.
pub fn vid_key(
    alloc: Global,
    place: KeyPath,
    table: &Table,
    key: &str,
    default: Option<Vid>,
) -> Result<Vid, TopoFault>
    ensures { Gives result (key_at (number 1 4094) default (place_text place) key.now
        (table_view table.now)) }
{
    match member(table, key) {
        Some(value) => match values::number(value, 1, 4094) {
            Ok(n) => Ok(Vid::new(n as u16).unwrap()),
            Err(fault) => Err(place.fault(alloc, key, fault)),
        },
        None => match default {
            Some(vid) => Ok(vid),
            None => Err(place.fault(alloc, key, KeyFault::Missing)),
        },
    }
}

/// The last VLAN of a range at a key, from its first to 4094, and the first where the key is
/// absent.
pub fn last_key(
    alloc: Global,
    place: KeyPath,
    table: &Table,
    key: &str,
    first: Vid,
) -> Result<Vid, TopoFault>
    ensures value { Gives result (key_at (number first 4094) (Some first) (place_text place) key.now
        (table_view table.now)) }
    ensures order { IfOk result (λ last. first ≤ last) }
{
    match member(table, key) {
        Some(value) => match values::number(value, first.number() as u32, 4094) {
            Ok(n) => Ok(Vid::new(n as u16).unwrap()),
            Err(fault) => Err(place.fault(alloc, key, fault)),
        },
        None => Ok(first),
    }
}

/// True or false at a key; where the key is absent, the default or Missing.
pub fn flag_key(
    alloc: Global,
    place: KeyPath,
    table: &Table,
    key: &str,
    default: Option<bool>,
) -> Result<bool, TopoFault>
    ensures { Gives result (key_at flag default (place_text place) key.now (table_view table.now)) }
{
    match member(table, key) {
        Some(value) => match values::flag(value) {
            Ok(flag) => Ok(flag),
            Err(fault) => Err(place.fault(alloc, key, fault)),
        },
        None => match default {
            Some(flag) => Ok(flag),
            None => Err(place.fault(alloc, key, KeyFault::Missing)),
        },
    }
}

/// The text at a key, or the default.
pub fn text_key(
    alloc: Global,
    place: KeyPath,
    table: &Table,
    key: &str,
    default: &str,
) -> Result<Text, TopoFault>
    ensures { Gives result (key_at text (Some default.now) (place_text place) key.now
        (table_view table.now)) }
{
    match member(table, key) {
        Some(value) => match values::text(value) {
            Ok(text) => Ok(Text::from_str(alloc, text)?),
            Err(fault) => Err(place.fault(alloc, key, fault)),
        },
        None => Ok(Text::from_str(alloc, default)?),
    }
}

/// The port at a key, which is required.
pub fn port_key(
    alloc: Global,
    place: KeyPath,
    table: &Table,
    key: &str,
) -> Result<PortId, TopoFault>
    ensures { Gives result (key_at port None (place_text place) key.now (table_view table.now)) }
{
    match member(table, key) {
        Some(value) => match values::port(value) {
            Ok(port) => Ok(port),
            Err(fault) => Err(place.fault(alloc, key, fault)),
        },
        None => Err(place.fault(alloc, key, KeyFault::Missing)),
    }
}

/// The address at a key, which is required.
pub fn address_key(
    alloc: Global,
    place: KeyPath,
    table: &Table,
    key: &str,
) -> Result<Mac, TopoFault>
    ensures { Gives result (key_at address None (place_text place) key.now (table_view table.now)) }
{
    match member(table, key) {
        Some(value) => match values::address(value) {
            Ok(address) => Ok(address),
            Err(fault) => Err(place.fault(alloc, key, fault)),
        },
        None => Err(place.fault(alloc, key, KeyFault::Missing)),
    }
}

/// The frame types at a key; where the key is absent, the default or Missing.
pub fn accept_key(
    alloc: Global,
    place: KeyPath,
    table: &Table,
    key: &str,
    default: Option<Accept>,
) -> Result<Accept, TopoFault>
    ensures { Gives result (key_at accept default (place_text place) key.now
        (table_view table.now)) }
{
    match member(table, key) {
        Some(value) => match values::accept(value) {
            Ok(accept) => Ok(accept),
            Err(fault) => Err(place.fault(alloc, key, fault)),
        },
        None => match default {
            Some(accept) => Ok(accept),
            None => Err(place.fault(alloc, key, KeyFault::Missing)),
        },
    }
}

/// The membership at a key, which is required.
pub fn kind_key(alloc: Global, place: KeyPath, table: &Table, key: &str) -> Result<Kind, TopoFault>
    ensures { Gives result (key_at kind None (place_text place) key.now (table_view table.now)) }
{
    match member(table, key) {
        Some(value) => match values::kind(value) {
            Ok(kind) => Ok(kind),
            Err(fault) => Err(place.fault(alloc, key, fault)),
        },
        None => Err(place.fault(alloc, key, KeyFault::Missing)),
    }
}

/// An ageing time in seconds at a key, 0 or 10 to 1,000,000, and 300 where the key is absent.
pub fn ageing_key(alloc: Global, place: KeyPath, table: &Table, key: &str) -> Result<u32, TopoFault>
    ensures range { IfOk result IsAgeing }
    ensures value { Gives result (key_at ageing (Some 300) (place_text place) key.now
        (table_view table.now)) }
{
    match member(table, key) {
        Some(value) => match values::ageing(value) {
            Ok(n) => Ok(n),
            Err(fault) => Err(place.fault(alloc, key, fault)),
        },
        None => Ok(300),
    }
}

/// The seconds at a key, which is required, not below those of the command before.
#[tactic(auto, unfolding(crate::specs::Keys::seconds))]
pub fn seconds_key(
    alloc: Global,
    place: KeyPath,
    table: &Table,
    key: &str,
    before: u32,
) -> Result<u32, TopoFault>
    ensures { Gives result (key_at (seconds before) None (place_text place) key.now
        (table_view table.now)) }
{
    match member(table, key) {
        Some(value) => match values::number(value, before, u32::MAX) {
            Ok(n) => Ok(n),
            Err(fault) => Err(place.fault(alloc, key, fault)),
        },
        None => Err(place.fault(alloc, key, KeyFault::Missing)),
    }
}

/// The fate at a key, empty where it is absent. This many letters of fates stand before it in the
/// file, and with its own they may be 60,000.
#[tactic(auto, unfolding(crate::specs::Keys::fate))]
pub fn fate_key(
    alloc: Global,
    place: KeyPath,
    table: &Table,
    key: &str,
    letters: usize,
) -> Result<List<Verdict>, TopoFault>
    requires { letters ≤ 60000 }
    ensures value { Gives result (key_at (fate letters) (Some []) (place_text place) key.now
        (table_view table.now)) }
    ensures room { IfOk result (λ fate. letters + length fate ≤ 60000) }
{
    match member(table, key) {
        Some(Value::String(s)) => match text_values::fate_of(alloc, s.as_bytes())? {
            Some(fate) if fate.as_slice().len() <= 60_000 - letters => Ok(fate),
            Some(_) => Err(place.fault(alloc, key, KeyFault::Range)),
            None => Err(place.fault(alloc, key, KeyFault::Name)),
        },
        Some(_) => Err(place.fault(alloc, key, KeyFault::Kind)),
        None => Ok(List::new(alloc)),
    }
}

/// The words of a list of texts.
fn words_in(
    alloc: Global,
    place: KeyPath,
    key: &str,
    items: &[Value],
) -> Result<List<PortPattern>, TopoFault>
    ensures { Gives result (placed (place_text place ++ key.now)
        (named (words_of (items_view items.now)))) }
{
    let mut all = List::new(alloc);
    for item in items {
        match values::word_in(item) {
            Some(word) => all.push(word)?,
            None => return Err(place.fault(alloc, key, KeyFault::Name)),
        }
    }
    Ok(all)
}

/// The list of words for ports at a key; where the key is absent, empty or, where it is required,
/// Missing.
#[tactic(auto, unfolding(crate::specs::Keys::words))]
pub fn words_key(
    alloc: Global,
    place: KeyPath,
    table: &Table,
    key: &str,
    required: bool,
) -> Result<List<PortPattern>, TopoFault>
    ensures { Gives result (key_at words (if required then None else Some []) (place_text place)
        key.now (table_view table.now)) }
{
    match member(table, key) {
        Some(Value::Array(items)) => {
            if !values::are_texts(items) {
                return Err(place.fault(alloc, key, KeyFault::Kind));
            }
            words_in(alloc, place, key, items)
        }
        Some(_) => Err(place.fault(alloc, key, KeyFault::Kind)),
        None => {
            if required {
                return Err(place.fault(alloc, key, KeyFault::Missing));
            }
            Ok(List::new(alloc))
        }
    }
}
