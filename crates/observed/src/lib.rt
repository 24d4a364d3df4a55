// What random histories look at beside the answers: the paths that a call follows and the height of a tree, the head and the memory that it leaves,
// clicks and crowded ticks; and the counts of what was seen. It shares no code with the calls.
#![tactic(auto)]

mod counts;
mod left_behind;
mod lives;
mod paths;

pub use counts::{Counts, refusal_of, same};
pub use left_behind::{head_agrees, memory_sum};
pub use lives::Lives;
pub use paths::{height, pages_opened, word_at};
