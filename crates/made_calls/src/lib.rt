// A call of a random history made on the store, and all that is seen of it.
#![tactic(auto)]

mod call;
mod seen;

pub use seen::made;
