// What an entry does to the rows of one page: document 01's steps 2 to 4 and 7, on the page's own words.
#![tactic(auto)]

mod steps;

pub use steps::{Change, change_words};
