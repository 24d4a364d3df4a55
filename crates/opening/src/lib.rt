// The call that opens a store. It asks nothing of what it is handed.
#![tactic(auto)]

mod opening;

pub use opening::open;
