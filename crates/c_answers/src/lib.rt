// The answers as numbers: what firmware in C is given back.
#![tactic(auto)]

mod said;
mod totals;

pub use said::{number_of, refusal_of};
pub use totals::{tell, tell_time};
