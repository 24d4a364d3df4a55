// Key ranges of rows, held in arrays in any order: the range that holds a key, the nearest range. No page words.
#![tactic(auto)]

mod range;
mod search;

pub use range::{holds_key, range_high, range_low, range_of};
pub use search::{find_holder, find_place};
