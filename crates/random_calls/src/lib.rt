// The calls of random histories: of every kind, most of them accepted, drawn by the history's shape and by what the book holds.
#![tactic(auto)]

mod asked;
mod list;
mod next;
mod random;
mod refused_calls;
mod shape;

pub use list::PASSES;
pub use next::next_call;
pub use random::draw;
pub use shape::{Keys, Pace, Shape};
