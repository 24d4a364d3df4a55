// The open passes of a head.
#![tactic(auto)]

mod passes;

pub use passes::{ended_head, find_pass, opened_head, started_head};
