//! The plan of a command, as code (after IEEE 802.1BR; the protocol is this project's own). A
//! change is made of pieces: the rows of a set, the parts of a configuration and the sets that it
//! needs, and, by the port that goes up or down, the groups that go and the sets that come, what
//! the bridge asks of its extenders before the change takes effect and after it, which numbers it
//! claims and which it frees. Which these are is told by what the command touches, the parts of the
//! VLANs and static entries which it changes, and for a command about one port only those below
//! that port's own trunk: how often each group's set is a part is counted, so no set of another
//! VLAN or below another trunk is looked at. Upwards it promises exactly the rows, sets, lists,
//! numbers and plans that `exb_control_spec` defines. It stands on `exb_control_spec`,
//! `exb_numbers`, `exb_config`, `exb_csp` and `exb_model`.
#![tactic(auto)]

pub mod branches;
pub mod cascade_ports;
pub mod change;
mod claims;
pub mod command_plan;
pub mod config_view;
mod group_guesses;
mod group_requests;
pub mod group_sets;
pub mod group_uses;
mod lost_uses;
pub mod parts;
mod pending_config;
pub mod places;
pub mod ports_below;
mod presence;
mod recount;
pub mod refusals;
pub mod request_messages;
pub mod rising_numbers;
pub mod set_rows;
mod shortage;
pub mod touched_parts;
pub mod touched_sets;

pub use branches::Branches;
pub use change::make_change;
pub use command_plan::plan;
pub use config_view::View;
pub use group_sets::{each_once, sets};
pub use group_uses::GroupUses;
pub use places::Places;
pub use ports_below::{cascades_under, is_under};
pub use refusals::channels_short;
pub use set_rows::rows;
pub use touched_parts::{Parts, parts_around};
