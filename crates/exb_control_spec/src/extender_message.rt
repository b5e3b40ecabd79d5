//! What goes out to an extender.
use exb_csp::Message;

/// A message of the control protocol to an extender, which has a number of 1 to 64.
#[derive(Drop)]
pub struct Asked {
    pub extender: u8,
    pub message: Message,
}
