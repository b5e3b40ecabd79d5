//! What one extender is asked.
use crate::message::Request;

/// A request to an extender, which has a number of 1 to 64.
#[derive(Drop)]
pub struct AskAt {
    pub extender: u8,
    pub request: Request,
}
