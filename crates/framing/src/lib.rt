// Where the commands of a stream end, whether one waits, and whether the run goes on behind it.
#![tactic(auto)]

mod framing;

pub use framing::{LONGEST_ANSWER, command_length, goes_on, must_wait, operand_count};
