// A start or an end, taken from its bytes, for the command stream and for bursts.
#![tactic(auto)]

mod reading;

pub use reading::{Event, read_event};
