// The commands that enter points, run on lent slices.
#![tactic(auto)]

mod running;

pub use running::run_event;
