// Numbers as bytes, the lowest first: what commands and answers are made of.
#![tactic(auto)]

mod numbers;

pub use numbers::{number2, number4, put_bytes, put_number};
