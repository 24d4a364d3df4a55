// The store, three trees and a head, as definitions and theorems: this crate has the types that they speak of. The crates `head`, `refusals`, `queries` and
// `updates` have the code of its calls.
#![tactic(auto)]

mod lending;
mod refusal;
mod types;

pub use lending::{StoreView, TreeMemory, TreeView};
pub use refusal::Refusal;
pub use types::{Answer, FoundPass, Head, OpenPass, TreeName};
