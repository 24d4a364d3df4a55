// The values of the points that the tree of time takes.
#![tactic(auto)]

mod adding;

pub use adding::{time_at_end, time_at_start};
