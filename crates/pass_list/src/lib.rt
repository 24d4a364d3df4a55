// The passes of the book in a lent list, and what they add up to. Proved to be what the book of the definitions says of its passes (store/specs/Passes,
// Points and BatTime); it shares no code with the store's calls.
#![tactic(auto)]

mod list;
mod sums;
mod types;

pub use list::open_count;
pub use sums::totals;
pub use types::{Asked, ListedPass, PassBook, Window};
