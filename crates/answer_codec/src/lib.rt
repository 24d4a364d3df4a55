// Answers as the bytes that a command writes.
#![tactic(auto)]

mod spelling;

pub use spelling::{answer_bytes, put_answer};
