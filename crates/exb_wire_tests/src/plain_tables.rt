//! The plain program of executing requests: a word of 64 bits for each E-CID, and loops that do
//! what the definition says. Tests and faster programs are held against it.

ghost use Rattle.std.specs.Prelude.{◌≡◌, ◌≢◌, ℕ, ◌+◌, ◌<◌, ◌≤◌, ◌==◌, ◌&&◌, ◌||◌, [], nat_lt, nat_le, List, length, slice_index, slice_index_or, false, All, IfOk, if◌then◌else◌};
ghost use Rattle.std.specs.List.{list_all};
ghost use Rattle.std.specs.Int.{bit_at};
ghost use Rattle.exb_csp.specs.Execution.{is_ecid, in_mask, some_port, has_stray, is_named, create_code, row_code, rows_code, clears_code, answered_ports, executed, response_to};
ghost use Rattle.exb_csp.specs.PortMasks.{AddsRows, ClearsRows, ClearsPair, powered_on};
ghost use Rattle.exb_wire_tests.specs.PlainStates.{IsPlain, tables_in, tables_of, is_shut, Created, Deleted, IsChange};

use exb_csp::{GroupRow, Request, Response, is_channel, is_ecid};
use exb_model::memory::NoMemory;
use std::alloc::{AllocError, Global};
use std::marker::Model;

/// The tables of an extender of 1 to 64 ports. Contracts see the lists that it keeps, and
/// `tables_of` gives the tables that these are.
#[derive(Drop)]
pub struct PlainTables {
    own: Vec<u16>,
    cascade: Vec<bool>,
    words: Vec<u64>,
}

impl Model for PlainTables {
    ghost use Rattle.exb_wire_tests.specs.PlainStates.{PlainState, IsPlain};

    ghost Value = { PlainState };

    ghost view = { λ t. record {
      own = t.own.items;
      cascade = t.cascade.items;
      words = t.words.items;
    } };

    ghost invariant = { λ t. IsPlain t.own.items t.cascade.items t.words.items };
}

// Whether the port is one of so many.
fn is_port(count: usize, port: u8) -> bool
    ensures { result ≡ (nat_lt 0 port && nat_le port count) }
{
    port > 0 && port as usize <= count
}

// Whether a word has the bit of some port.
fn has_pair(words: &[u64], ecid: u16) -> bool
    requires { ecid < length words.now }
    ensures { result ≡ some_port (in_mask (slice_index words.now ecid)) }
{
    words[ecid as usize] != 0
}

fn has_bit(mask: u64, k: u8) -> bool
    requires { k < 64 }
    ensures { result ≡ (bit_at mask k == 1) }
{
    mask >> k & 1 == 1
}

// Whether there is the pair of the E-CID and port k + 1.
fn pair_at(words: &[u64], ecid: u16, k: u8) -> bool
    requires ecid { ecid < length words.now }
    requires port { k < 64 }
    ensures { result ≡ (bit_at (slice_index words.now ecid) k == 1) }
{
    has_bit(words[ecid as usize], k)
}

// Whether port k + 1 is above the count or has no channel.
fn is_shut(own: &[u16], k: usize) -> bool
    ensures { result ≡ is_shut own.now k }
{
    k >= own.len() || own[k] == 0
}

// Whether the mask has the bit of such a port.
fn has_stray(own: &[u16], mask: u64) -> bool
    ensures { (words : List ℕ) → result ≡ has_stray (tables_in own.now [] words) mask }
{
    'ports: for k in 0..64u8 {
        if has_bit(mask, k) && is_shut(own, k as usize) {
            return true;
        }
    }
    false
}

// Whether one of the rows is of the E-CID.
fn is_named(rows: &[GroupRow], ecid: u16) -> bool
    ensures { result ≡ is_named rows.now ecid }
{
    rows.iter().any(|row| row.ecid == ecid)
}

// Whether the E-CID has a pair, or an earlier row is of it.
fn is_taken(words: &[u64], earlier: &[GroupRow], ecid: u16) -> bool
    requires { ecid < length words.now }
    ensures { result
        ≡ (some_port (in_mask (slice_index words.now ecid)) || is_named earlier.now ecid) }
{
    has_pair(words, ecid) || is_named(earlier, ecid)
}

fn row_code(own: &[u16], words: &[u64], earlier: &[GroupRow], row: GroupRow) -> u8
    requires { length words.now ≡ 0x4000 }
    ensures { result ≡ row_code (tables_in own.now [] words.now) earlier.now row.ecid row.mask }
{
    if !is_ecid(row.ecid) {
        return 2;
    }
    if has_stray(own, row.mask) {
        return 1;
    }
    if is_taken(words, earlier, row.ecid) {
        return 3;
    }
    0
}

fn rows_code(own: &[u16], words: &[u64], rows: &[GroupRow]) -> u8
    requires { length words.now ≡ 0x4000 }
    ensures { result ≡ rows_code (tables_in own.now [] words.now) [] rows.now }
{
    'rows: for (at, row) in rows.iter().enumerate() {
        let (earlier, _) = rows.split_at(at);
        let code = row_code(own, words, earlier, *row);
        if code != 0 {
            return code;
        }
    }
    0
}

// Adds the pairs of the rows.
fn set_rows(words: &mut [u64], rows: &[GroupRow])
    requires { All (λ row. row.ecid < length words.old) rows.now }
    ensures { AddsRows words.old words.new rows.now }
{
    'rows: for row in rows {
        words[row.ecid as usize] |= row.mask;
    }
}

// Registers the rows, all of them or none.
fn register_many(own: &[u16], words: &mut [u64], rows: &[GroupRow]) -> u8
    requires { length words.old ≡ 0x4000 }
    ensures code { result ≡ rows_code (tables_in own.now [] words.old) [] rows.now }
    ensures done { result ≡ 0 → AddsRows words.old words.new rows.now }
    ensures refused { result ≢ 0 → words.new ≡ words.old }
{
    let code = rows_code(own, words, rows);
    if code != 0 {
        return code;
    }
    set_rows(words, rows);
    0
}

// Whether all are E-CIDs.
fn all_known(ecids: &[u16]) -> bool
    ensures { result ≡ list_all is_ecid ecids.now }
{
    ecids.iter().all(|ecid| is_ecid(*ecid))
}

// Removes all pairs of the E-CIDs.
fn clear_rows(words: &mut [u64], ecids: &[u16])
    requires { All (λ ecid. ecid < length words.old) ecids.now }
    ensures { ClearsRows words.old words.new ecids.now }
{
    'ecids: for ecid in ecids {
        words[*ecid as usize] = 0;
    }
}

// Unregisters the E-CIDs, all of them or none.
fn unregister_many(words: &mut [u64], ecids: &[u16]) -> u8
    requires { length words.old ≡ 0x4000 }
    ensures code { result ≡ clears_code ecids.now }
    ensures done { result ≡ 0 → ClearsRows words.old words.new ecids.now }
    ensures refused { result ≢ 0 → words.new ≡ words.old }
{
    if !all_known(ecids) {
        return 2;
    }
    clear_rows(words, ecids);
    0
}

// Gives a port its channel and kind, and the channel its pair.
fn create(
    own: &mut [u16],
    cascade: &mut [bool],
    words: &mut [u64],
    port: u8,
    kind: bool,
    channel: u16,
) -> u8
    requires { IsPlain own.old cascade.old words.old }
    ensures code { result ≡ create_code (tables_in own.old cascade.old words.old) port channel }
    ensures done { result ≡ 0
        → Created own.old cascade.old words.old port kind channel own.new cascade.new words.new }
    ensures refused { result ≢ 0
        → (own.new ≡ own.old) × (cascade.new ≡ cascade.old) × (words.new ≡ words.old) }
{
    if !is_port(own.len(), port) {
        return 1;
    }
    if !is_channel(channel) {
        return 2;
    }
    let at = port as usize - 1;
    if own[at] != 0 {
        return 3;
    }
    if has_pair(words, channel) {
        return 3;
    }
    own[at] = channel;
    cascade[at] = kind;
    let row = GroupRow {
        ecid: channel,
        mask: 1 << at,
    };
    set_rows(words, &[row]);
    0
}

// Removes the pair of an E-CID and port at + 1.
fn clear_pair(words: &mut [u64], ecid: u16, at: usize)
    requires known { ecid < length words.old }
    requires few { at < 64 }
    ensures { ClearsPair words.old words.new ecid (at + 1) }
{
    words[ecid as usize] &= !(1 << at);
}

// Takes a port's channel and its pair back.
fn delete(own: &mut [u16], words: &mut [u64], port: u8) -> u8
    requires few { length own.old ≤ 64 }
    requires words { length words.old ≡ 0x4000 }
    requires channels { (k : ℕ) → slice_index own.old k < 0x4000 }
    ensures code { result ≡ (if nat_lt 0 port && nat_le port (length own.old) then 0 else 1) }
    ensures done { result ≡ 0 → Deleted own.old words.old port own.new words.new }
    ensures refused { result ≢ 0 → (own.new ≡ own.old) × (words.new ≡ words.old) }
{
    if !is_port(own.len(), port) {
        return 1;
    }
    let at = port as usize - 1;
    let channel = own[at];
    if channel == 0 {
        return 0;
    }
    own[at] = 0;
    clear_pair(words, channel, at);
    0
}

// Does what the request asks, and answers its code.
fn change(own: &mut [u16], cascade: &mut [bool], words: &mut [u64], request: &Request) -> u8
    requires { IsPlain own.old cascade.old words.old }
    ensures { IsChange own.old cascade.old words.old request.now result own.new cascade.new
        words.new }
{
    match request {
        Request::Open => 0,
        Request::PortCreate {
            port,
            cascade: kind,
            channel,
        } => create(own, cascade, words, *port, *kind, *channel),
        Request::PortDelete { port } => delete(own, words, *port),
        Request::Register { ecid, mask } => {
            let row = GroupRow {
                ecid: *ecid,
                mask: *mask,
            };
            register_many(own, words, &[row])
        }
        Request::Unregister { ecid } => unregister_many(words, &[*ecid]),
        Request::RegisterMany { rows } => register_many(own, words, rows.as_slice()),
        Request::UnregisterMany { ecids } => unregister_many(words, ecids.as_slice()),
    }
}

// As many channels, none of them given.
fn no_channels(alloc: Global, count: usize) -> Result<Vec<u16>, AllocError>
    ensures long { IfOk result (λ own. length own.items ≡ count) }
    ensures each { IfOk result (λ own. (k : ℕ) → slice_index own.items k ≡ 0) }
{
    vec![in alloc; 0; count]
}

fn all_external(alloc: Global, count: usize) -> Result<Vec<bool>, AllocError>
    ensures long { IfOk result (λ kinds. length kinds.items ≡ count) }
    ensures each { IfOk result (λ kinds. (k : ℕ) → slice_index_or kinds.items k false ≡ false) }
{
    vec![in alloc; false; count]
}

fn no_pairs(alloc: Global, count: usize) -> Result<Vec<u64>, AllocError>
    ensures long { IfOk result (λ words. length words.items ≡ count) }
    ensures each { IfOk result (λ words. (k : ℕ) → slice_index words.items k ≡ 0) }
{
    vec![in alloc; 0; count]
}

// The port count that is answered, of so many ports.
fn answered_ports(ports: u8, request: &Request) -> u8
    ensures { result ≡ answered_ports ports request.now }
{
    match request {
        Request::Open => ports,
        _ => 0,
    }
}

impl PlainTables {
    /// The tables of an extender of so many ports at power-on: no channel, and no pair.
    pub fn new(alloc: Global, ports: u8) -> Result<PlainTables, NoMemory>
        requires { ports ≤ 64 }
        ensures { IfOk result (λ t. tables_of t ≡ powered_on ports) }
    {
        let own = no_channels(alloc, ports as usize)?;
        let cascade = all_external(alloc, ports as usize)?;
        let words = no_pairs(alloc, 0x4000)?;
        Ok(PlainTables {
            own,
            cascade,
            words,
        })
    }

    /// Executes a request.
    pub fn execute(&mut self, request: &Request) -> Response
        ensures tables { tables_of self.new ≡ executed (tables_of self.old) request.now }
        ensures response { result ≡ response_to (tables_of self.old) request.now }
    {
        let ports = answered_ports(self.own.len() as u8, request);
        let own = self.own.as_mut_slice();
        let cascade = self.cascade.as_mut_slice();
        let words = self.words.as_mut_slice();
        let code = change(own, cascade, words, request);
        Response {
            to: request.kind(),
            code,
            ports,
        }
    }

    /// Whether there is the pair of the E-CID, below 0x4000, and the port.
    pub fn has_pair(&self, ecid: u16, port: u8) -> bool
        requires ecid { ecid < 0x4000 }
        requires port { (0 < port) × (port ≤ 64) }
        ensures { result ≡ (tables_of self.now).pair ecid port }
    {
        pair_at(self.words.as_slice(), ecid, port - 1)
    }
}
