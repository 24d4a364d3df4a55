// The plan of an entry into one tree: what the entry would do, before anything is written.
#![tactic(auto)]

mod planning;

pub use planning::plan;
