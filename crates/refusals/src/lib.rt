// The refusal lists of the calls: the first ground that is met.
#![tactic(auto)]

mod refusals;

pub use refusals::{end_refusal, opening_refusal, reading_refusal, start_refusal};
