// What lent memory has room for, by its lengths, a tree's use and the plan of an entry.
#![tactic(auto)]

mod room;

pub use room::{entry_refusal, too_small, use_fits};
