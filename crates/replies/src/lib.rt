// What the calls that write hand back: the answer and the head.
#![tactic(auto)]

mod types;

pub use types::Reply;
