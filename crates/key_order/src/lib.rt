// The live rows of one page in key order, read from its own words into an array: what an overflow puts into the new pages.
#![tactic(auto)]

mod order;

pub use order::{entry_place, key_order};
