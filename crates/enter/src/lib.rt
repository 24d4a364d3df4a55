// Entering a planned point into one tree, in a lent page table and a lent root list.
#![tactic(auto)]

mod entering;
mod growing;

pub use growing::enter;
