// The lookup of one tree for two keys at once, as a question makes it, and for two keys at two ticks, as an interval has them.
#![tactic(auto)]

mod ticks;
mod together;

pub use ticks::{LookupTicks, lookup_ticks_at};
pub use together::lookup_two_at;
