// A burst of starts and ends from the ear's buffer, entered one by one, on lent slices.
#![tactic(auto)]

mod entering;

pub use entering::{BurstReply, enter_burst};
