// What entering a point passes from a page to the one above it.
use tree::Became;

// What was done from a page down: what it became, and how many pages were made.
#[derive(Clone, Copy)]
pub struct Done {
    pub became: Became,
    pub made: u32,
}
