// The calls that enter points: start and end. None of them asks anything of what it is handed.
#![tactic(auto)]

mod writing;

pub use writing::{end, start};
