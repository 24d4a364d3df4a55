// A page as a value, with the sizes of the page kind as its constants: made empty or as a two-row root, given rows, and written whole into the words of
// one page.
#![tactic(auto)]

mod fresh;

pub use fresh::Page;
