//! What is asked of extenders, in messages.
ghost use Rattle.std.specs.Prelude.{◌≡◌, ◌≤◌, ◌++◌, ◌∷◌, [], length, min, OnOk};
ghost use Rattle.exb_model.specs.Tree.{device, port_number};
ghost use Rattle.exb_control_spec.specs.Plans.ChangeRequests.{ask, register, unregister, numbers_of, message, asks_with, channel_asks, create_asks, delete_asks, put_above};

use crate::set_rows::rows;
use exb_control_spec::{Row, RowAction};
use exb_csp::{AskAt, Ecids, GroupRow, GroupRows, Request};
use exb_model::list::List;
use exb_model::memory::NoMemory;
use exb_model::port::PortId;
use exb_model::port_set::PortSet;
use exb_model::tree::Tree;
use std::alloc::Global;

/// How many rows or numbers one message has at most.
const MOST: usize = 64;

// Asks an extender for these rows: for one of them by Register. A request is large, so each is made
// where it is put.
fn put_register(asks: &mut List<AskAt>, extender: u8, rows: &[GroupRow]) -> Result<(), NoMemory>
    requires { length rows.now ≤ 64 }
    ensures { OnOk result (asks.new ≡ asks.old ++ ask extender (register rows.now) ∷ []) }
{
    if let [row] = rows {
        let (ecid, mask) = (row.ecid, row.mask);
        let request = Request::Register { ecid, mask };
        return asks.push(AskAt { extender, request });
    }
    let mut many = GroupRows::new();
    for row in rows {
        many.push(*row);
    }
    let request = Request::RegisterMany { rows: many };
    asks.push(AskAt { extender, request })
}

// Asks an extender to clear the numbers of these rows: for one of them by Unregister.
fn put_unregister(asks: &mut List<AskAt>, extender: u8, rows: &[GroupRow]) -> Result<(), NoMemory>
    requires { length rows.now ≤ 64 }
    ensures { OnOk result (asks.new ≡ asks.old ++ ask extender (unregister (numbers_of rows.now))
        ∷ []) }
{
    if let [row] = rows {
        let request = Request::Unregister { ecid: row.ecid };
        return asks.push(AskAt { extender, request });
    }
    let mut many = Ecids::new();
    for row in rows {
        many.push(row.ecid);
    }
    let request = Request::UnregisterMany { ecids: many };
    asks.push(AskAt { extender, request })
}

// Asks an extender for at most 64 rows.
fn put_message(
    asks: &mut List<AskAt>,
    step: RowAction,
    extender: u8,
    rows: &[GroupRow],
) -> Result<(), NoMemory>
    requires { length rows.now ≤ 64 }
    ensures { OnOk result (asks.new ≡ asks.old ++ ask extender (message step rows.now) ∷ []) }
{
    match step {
        RowAction::Lay => put_register(asks, extender, rows),
        RowAction::Clear => put_unregister(asks, extender, rows),
    }
}

// How many rows go into the next message.
fn rows_in_message(rows: &[GroupRow]) -> usize
    ensures { result ≡ min (length rows.now) 64 }
{
    if rows.len() < MOST { rows.len() } else { MOST }
}

/// Asks an extender for all of these rows, in messages of 64 and a last one of 1 to 64.
pub(crate) fn put_messages(
    asks: &mut List<AskAt>,
    step: RowAction,
    extender: u8,
    rows: &[GroupRow],
) -> Result<(), NoMemory>
    ensures { OnOk result (asks.new ≡ asks.old ++ asks_with step rows.now extender) }
{
    let mut left = rows;
    while !left.is_empty() {
        let (piece, rest) = left.split_at(rows_in_message(left));
        put_message(asks, step, extender, piece)?;
        left = rest;
    }
    Ok(())
}

// Asks an extender for the row of a channel, unless it is that of the channel's port.
fn put_above(
    asks: &mut List<AskAt>,
    step: RowAction,
    own: u8,
    channel: u16,
    row: &Row,
) -> Result<(), NoMemory>
    ensures { OnOk result (asks.new ≡ asks.old ++ put_above step own channel row.now) }
{
    if row.extender == own {
        return Ok(());
    }
    let rows = [GroupRow {
        ecid: channel,
        mask: row.mask,
    }];
    put_message(asks, step, row.extender, &rows)
}

// Asks each ancestor of a port, from the bridge down, for the row of the port's channel.
fn put_channel(
    alloc: Global,
    tree: &Tree,
    step: RowAction,
    port: PortId,
    channel: u16,
    asks: &mut List<AskAt>,
) -> Result<(), NoMemory>
    ensures { OnOk result (asks.new ≡ asks.old ++ channel_asks step tree.now port channel) }
{
    let own = port.device();
    let mut set = PortSet::empty();
    set.insert(port);
    let all = rows(alloc, tree, &set)?;
    let rows = all.as_slice();
    for row in rows {
        put_above(asks, step, own, channel, row)?;
    }
    Ok(())
}

// The number of a port at its extender.
fn own_number(port: PortId) -> u8
    ensures { result ≡ port_number port }
{
    port.place() + 1
}

// Asks the extender of a port.
fn put_own(asks: &mut List<AskAt>, port: PortId, request: Request) -> Result<(), NoMemory>
    ensures { OnOk result (asks.new ≡ asks.old ++ ask (device port) request ∷ []) }
{
    asks.push(AskAt {
        extender: port.device(),
        request,
    })
}

/// Asks that a port gets a channel: Register at each ancestor from the bridge down, then
/// PortCreate.
#[tactic(auto, using(std::proofs::lemmas::List::append_assoc), unfolding(exb_control_spec::specs::Plans::ChangeRequests::create_asks))]
pub fn put_create(
    alloc: Global,
    tree: &Tree,
    port: PortId,
    cascade: bool,
    channel: u16,
    asks: &mut List<AskAt>,
) -> Result<(), NoMemory>
    ensures { OnOk result (asks.new ≡ asks.old ++ create_asks tree.now port cascade channel) }
{
    let create = Request::PortCreate {
        port: own_number(port),
        cascade,
        channel,
    };
    put_channel(alloc, tree, RowAction::Lay, port, channel, asks)?;
    put_own(asks, port, create)
}

/// Asks that a port loses its channel: Unregister at each ancestor from the bridge down, then
/// PortDelete.
#[tactic(auto, using(std::proofs::lemmas::List::append_assoc), unfolding(exb_control_spec::specs::Plans::ChangeRequests::delete_asks))]
pub fn put_delete(
    alloc: Global,
    tree: &Tree,
    port: PortId,
    channel: u16,
    asks: &mut List<AskAt>,
) -> Result<(), NoMemory>
    ensures { OnOk result (asks.new ≡ asks.old ++ delete_asks tree.now port channel) }
{
    let delete = Request::PortDelete {
        port: own_number(port),
    };
    put_channel(alloc, tree, RowAction::Clear, port, channel, asks)?;
    put_own(asks, port, delete)
}
