// The lookup of each tree, a call of its own. None of them asks anything of what it is handed.
#![tactic(auto)]

mod lookups;

pub use lookups::{lookup_ends, lookup_in, lookup_starts, lookup_time};
