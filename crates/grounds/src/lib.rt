// The grounds that are numbers alone: a call's arguments, and what a head knows.
#![tactic(auto)]

mod grounds;

pub use grounds::{end_input, end_state, lookup_input, question_input, start_input, start_state};
