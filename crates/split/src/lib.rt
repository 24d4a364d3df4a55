// The pages that an overflow makes, written into a lent page table.
#![tactic(auto)]

mod done;
mod split;

pub use done::Done;
pub use split::{put_page, split_page, taken_page};
