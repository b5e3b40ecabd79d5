//! What a step hands out: the log of what happened, what has left and the lines of a trace; rows of
//! ports, at which the same leaves; and the buffers and boxes of what is gone, which are kept for
//! what is written next. Upwards the log is lists in order. It stands on links (`exb_link`), and
//! knows neither devices nor what a step is.
#![tactic(auto)]

pub mod free_list;
pub mod log;
pub mod port_map;

pub use free_list::FreeList;
pub use log::{Left, Log, StepOutput};
pub use port_map::PortMap;
