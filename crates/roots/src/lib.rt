// The roots of a tree: the root for a tick in a lent root list, and the page that it names.
#![tactic(auto)]

mod search;
mod top;

pub use search::{find_root, skip_later};
pub use top::{Top, find_top};
