//! The tables of an extender, and what a request does to them.
ghost use Rattle.std.specs.Prelude.{◌≡◌, ℕ, ◌<◌, ◌≤◌, ◌==◌, ◌&&◌, ◌||◌, nat_lt, nat_le, [], ◌∷◌, All, IfOk};
ghost use Rattle.std.specs.List.{list_all};
ghost use Rattle.exb_extender.specs.MemberSets.{row_of};
ghost use Rattle.exb_csp.specs.Execution.{is_ecid, in_mask, some_port, has_stray, has_pair, is_named, create_code, row_code, rows_code, code_of, answered_ports, executed, response_to};
ghost use Rattle.exb_csp.specs.PortMasks.{AddsRows, ClearsRows, ClearsPair, powered_on};
ghost use Rattle.exb_extender.specs.TableInvariant.{IsKept};

use crate::members::MemberSets;
use exb_csp::{GroupRow, Request, Response, is_channel, is_ecid};
use exb_model::memory::NoMemory;
use std::alloc::Global;

/// The tables of an extender of 1 to 64 ports. Lists by port have a place for each number up to 64.
#[derive(Drop)]
pub(crate) struct ForwardingTables {
    /// How many ports there are.
    count: u8,
    /// The own channel of each port, 0 for none.
    own: [u16; 65],
    /// Whether the port is a cascade port.
    cascade: [bool; 65],
    /// The ports of each E-CID.
    rows: MemberSets,
    pub ghost kept: { IsKept count own cascade },
}

// Whether a mask has the bit of a port.
fn has_port(mask: u64, port: u8) -> bool
    requires { (0 < port) × (port ≤ 64) }
    ensures { result ≡ in_mask mask port }
{
    mask >> (port - 1) & 1 == 1
}

// Whether one of the rows is of the E-CID.
fn is_named(rows: &[GroupRow], ecid: u16) -> bool
    ensures { result ≡ is_named rows.now ecid }
{
    rows.iter().any(|row| row.ecid == ecid)
}

// Whether all are E-CIDs.
fn all_known(ecids: &[u16]) -> bool
    ensures { result ≡ list_all is_ecid ecids.now }
{
    ecids.iter().all(|ecid| is_ecid(*ecid))
}

// Whether the E-CID goes to some port.
fn is_member(rows: &MemberSets, ecid: u16) -> bool
    requires { ecid < 16384 }
    ensures { result ≡ some_port (in_mask (row_of rows.now ecid)) }
{
    rows.row(ecid) != 0
}

// Adds the ports of a row.
fn add_row(rows: &mut MemberSets, row: GroupRow)
    requires { row.ecid < 16384 }
    ensures { AddsRows rows.old rows.new (row ∷ []) }
{
    let mask = rows.row(row.ecid) | row.mask;
    rows.put(row.ecid, mask);
}

fn add_rows(rows: &mut MemberSets, added: &[GroupRow])
    requires { All (λ row. row.ecid < 16384) added.now }
    ensures { AddsRows rows.old rows.new added.now }
{
    'added: for row in added {
        add_row(rows, *row);
    }
}

// Takes all ports out of the rows of the E-CIDs.
fn clear_rows(rows: &mut MemberSets, ecids: &[u16])
    requires { All (λ ecid. ecid < 16384) ecids.now }
    ensures { ClearsRows rows.old rows.new ecids.now }
{
    'ecids: for ecid in ecids {
        rows.clear(*ecid);
    }
}

// Takes a port out of the row of an E-CID.
fn take_out(rows: &mut MemberSets, ecid: u16, port: u8)
    requires known { ecid < 16384 }
    requires port { (0 < port) × (port ≤ 64) }
    ensures { ClearsPair rows.old rows.new ecid port }
{
    let mask = rows.row(ecid) & !(1 << (port - 1));
    rows.put(ecid, mask);
}

// The port count that is answered, of so many ports.
fn answered_ports(ports: u8, request: &Request) -> u8
    ensures { result ≡ answered_ports ports request.now }
{
    match request {
        Request::Open => ports,
        _ => 0,
    }
}

impl ForwardingTables {
    ghost use Rattle.exb_csp.specs.declared.message.Request.TheVariants.{PortCreate, PortDelete, RegisterMany, UnregisterMany};
    ghost use Rattle.exb_extender.specs.Tables.{tables_of};

    /// At power-on: each port is external and has no channel, and no E-CID goes to any port.
    pub(crate) fn new(alloc: Global, ports: u8) -> Result<ForwardingTables, NoMemory>
        requires { (1 ≤ ports) × (ports ≤ 64) }
        ensures { IfOk result (λ t. tables_of t ≡ powered_on ports) }
    {
        let rows = MemberSets::new(alloc)?;
        Ok(ForwardingTables::with_rows(ports, rows))
    }

    // Each port is external and has no channel; no E-CID goes to any port.
    fn with_rows(ports: u8, rows: MemberSets) -> ForwardingTables
        requires count { (1 ≤ ports) × (ports ≤ 64) }
        requires rows { (e : ℕ) → row_of rows e ≡ 0 }
        ensures { tables_of result ≡ powered_on ports }
    {
        ForwardingTables {
            count: ports,
            own: [0; 65],
            cascade: [false; 65],
            rows,
        }
    }

    /// How many ports there are.
    pub(crate) fn ports(&self) -> u8
        ensures count { result ≡ (tables_of self.now).ports }
        ensures some { 1 ≤ result }
        ensures few { result ≤ 64 }
    {
        self.count
    }

    /// The own channel of a port, 0 for none.
    pub(crate) fn channel(&self, port: u8) -> u16
        requires { port ≤ 64 }
        ensures channel { result ≡ (tables_of self.now).own port }
        ensures low { result < 4095 }
    {
        self.own[port as usize]
    }

    /// Whether a port is a cascade port.
    pub(crate) fn cascade(&self, port: u8) -> bool
        requires { port ≤ 64 }
        ensures { result ≡ (tables_of self.now).cascade port }
    {
        self.cascade[port as usize]
    }

    /// The ports of an E-CID, bit k - 1 being port k.
    pub(crate) fn row(&self, ecid: u16) -> u64
        requires { ecid < 16384 }
        ensures { (q : ℕ) → in_mask result q ≡ (tables_of self.now).pair ecid q }
    {
        self.rows.row(ecid)
    }

    // Whether it is one of the ports.
    fn is_port(&self, port: u8) -> bool
        ensures port { result ≡ (nat_lt 0 port && nat_le port (tables_of self.now).ports) }
        ensures few { (tables_of self.now).ports ≤ 64 }
    {
        port > 0 && port <= self.count
    }

    // Whether the port has no channel.
    fn is_idle(&self, port: u8) -> bool
        requires { port ≤ 64 }
        ensures { result ≡ ((tables_of self.now).own port == 0) }
    {
        self.own[port as usize] == 0
    }

    // Whether the mask has a port that has no channel.
    fn has_stray(&self, mask: u64) -> bool
        ensures { result ≡ has_stray (tables_of self.now) mask }
    {
        let mut left = mask;
        'ports: while left != 0 {
            let at = left.trailing_zeros() as u8;
            if self.is_idle(at + 1) {
                return true;
            }
            left &= !(1 << at);
        }
        false
    }

    // Whether the E-CID has a pair, or an earlier row is of it.
    fn is_taken(&self, earlier: &[GroupRow], ecid: u16) -> bool
        requires { ecid < 16384 }
        ensures { result ≡ (has_pair (tables_of self.now) ecid || is_named earlier.now ecid) }
    {
        is_member(&self.rows, ecid) || is_named(earlier, ecid)
    }

    fn row_code(&self, earlier: &[GroupRow], row: GroupRow) -> u8
        ensures { result ≡ row_code (tables_of self.now) earlier.now row.ecid row.mask }
    {
        if !is_ecid(row.ecid) {
            return 2;
        }
        if self.has_stray(row.mask) {
            return 1;
        }
        if self.is_taken(earlier, row.ecid) {
            return 3;
        }
        0
    }

    fn rows_code(&self, rows: &[GroupRow]) -> u8
        ensures { result ≡ rows_code (tables_of self.now) [] rows.now }
    {
        'rows: for (at, row) in rows.iter().enumerate() {
            let (earlier, _) = rows.split_at(at);
            let code = self.row_code(earlier, *row);
            if code != 0 {
                return code;
            }
        }
        0
    }

    // Registers the rows, all of them or none.
    fn register_many(&mut self, rows: &[GroupRow]) -> u8
        ensures code { result ≡ code_of (tables_of self.old) (RegisterMany rows.now) }
        ensures tables { tables_of self.new ≡ executed (tables_of self.old)
            (RegisterMany rows.now) }
    {
        let code = self.rows_code(rows);
        if code == 0 {
            add_rows(&mut self.rows, rows);
        }
        code
    }

    // Unregisters the E-CIDs, all of them or none.
    fn unregister_many(&mut self, ecids: &[u16]) -> u8
        ensures code { result ≡ code_of (tables_of self.old) (UnregisterMany ecids.now) }
        ensures tables { tables_of self.new ≡ executed (tables_of self.old)
            (UnregisterMany ecids.now) }
    {
        if !all_known(ecids) {
            return 2;
        }
        clear_rows(&mut self.rows, ecids);
        0
    }

    fn create_code(&self, port: u8, channel: u16) -> u8
        ensures { result ≡ create_code (tables_of self.now) port channel }
    {
        if !self.is_port(port) {
            return 1;
        }
        if !is_channel(channel) {
            return 2;
        }
        if self.own[port as usize] != 0 {
            return 3;
        }
        if is_member(&self.rows, channel) {
            return 3;
        }
        0
    }

    // Gives a port its channel and kind, and the channel its pair.
    fn create(&mut self, port: u8, cascade: bool, channel: u16) -> u8
        ensures code { result ≡ code_of (tables_of self.old) (PortCreate port cascade channel) }
        ensures tables { tables_of self.new ≡ executed (tables_of self.old)
            (PortCreate port cascade channel) }
    {
        let code = self.create_code(port, channel);
        if code == 0 {
            let row = GroupRow {
                ecid: channel,
                mask: 1 << (port - 1),
            };
            add_row(&mut self.rows, row);
            self.own[port as usize] = channel;
            self.cascade[port as usize] = cascade;
        }
        code
    }

    // Takes a port's channel and its pair back.
    fn delete(&mut self, port: u8) -> u8
        ensures code { result ≡ code_of (tables_of self.old) (PortDelete port) }
        ensures tables { tables_of self.new ≡ executed (tables_of self.old) (PortDelete port) }
    {
        if !self.is_port(port) {
            return 1;
        }
        let channel = self.own[port as usize];
        if channel != 0 {
            take_out(&mut self.rows, channel, port);
            self.own[port as usize] = 0;
        }
        0
    }

    // Does what the request asks, and answers its code.
    fn change(&mut self, request: &Request) -> u8
        ensures code { result ≡ code_of (tables_of self.old) request.now }
        ensures tables { tables_of self.new ≡ executed (tables_of self.old) request.now }
    {
        match request {
            Request::Open => 0,
            Request::PortCreate {
                port,
                cascade,
                channel,
            } => self.create(*port, *cascade, *channel),
            Request::PortDelete { port } => self.delete(*port),
            Request::Register { ecid, mask } => {
                let row = GroupRow {
                    ecid: *ecid,
                    mask: *mask,
                };
                self.register_many(&[row])
            }
            Request::Unregister { ecid } => self.unregister_many(&[*ecid]),
            Request::RegisterMany { rows } => self.register_many(rows.as_slice()),
            Request::UnregisterMany { ecids } => self.unregister_many(ecids.as_slice()),
        }
    }

    /// Executes a request. Where the code isn't 0 nothing has changed.
    pub(crate) fn execute(&mut self, request: &Request) -> Response
        ensures tables { tables_of self.new ≡ executed (tables_of self.old) request.now }
        ensures response { result ≡ response_to (tables_of self.old) request.now }
    {
        let ports = answered_ports(self.count, request);
        let code = self.change(request);
        Response {
            to: request.kind(),
            code,
            ports,
        }
    }
}
