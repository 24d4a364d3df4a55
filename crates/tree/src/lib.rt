// One tree, as definitions and theorems: this crate has the types and sizes that they speak of and no function. The crates above it have the code.
#![tactic(auto)]

mod geometry;
mod pages;
mod types;

pub use geometry::{PAGE_HEADER_WORDS, PAGE_ROWS, PAGE_WORDS};
pub use pages::{ExpectedPage, TreePages};
pub use types::{Became, Child, Held, Lookup, Plan, RootChange, Row, SpoiledPage, TreeUse};
