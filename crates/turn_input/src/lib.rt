// The bytes that come to the command program, in its buffer: one read, and what waits for the next turn.
#![tactic(auto)]

mod input;

pub use input::{keep_rest, read_behind};
