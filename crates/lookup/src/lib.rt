// The lookup of one tree, in a lent page table and a lent root list.
#![tactic(auto)]

mod descent;

pub use descent::{descend_from, lookup, lookup_at};
