// The page test on the key ranges of live rows, held in an array in any order: whether they hold each key of the page's range once. No page words.
#![tactic(auto)]

mod tile;

pub use tile::tiles;
