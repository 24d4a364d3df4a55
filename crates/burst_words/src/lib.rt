// What the bytes and the result list of a burst must be, and the two words that an event of it gets.
#![tactic(auto)]

mod refusal;
mod results;

pub use refusal::{EVENT_BYTES, burst_refusal};
pub use results::put_result;
