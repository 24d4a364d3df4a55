// The pages of a tree as a call is lent them, and a page as a descent expects it.
ghost use Rattle.std.specs.Prelude.{◌*◌, ◌≤◌, ◌<◌, length};
ghost use Rattle.tree.specs.Row.{page_words};

use crate::types::TreeUse;

// A page table, and what the tree uses of it: the pages in use lie in the table.
#[derive(Clone, Copy)]
pub struct TreePages<'a> {
    pub table: &'a [u64],
    pub used: TreeUse,
    ghost page_words_in_bounds: { used.pages * page_words ≤ length table.now },
}

// A page as one of a level and a key range, which has a key.
#[derive(Clone, Copy)]
pub struct ExpectedPage {
    pub page: u32,
    pub level: u64,
    pub low: u16,
    pub high: u16,
    ghost low_lt_high: { low < high },
}
