// The test of a head: refusal 20.
#![tactic(auto)]

mod fits;

pub use fits::head_fits;
