// One page of a page table: whether it is in use, and its words.
ghost use Rattle.std.specs.Prelude.{◌≡◌, ◌+◌, ◌*◌, ◌≤◌, length};
ghost use Rattle.tree.specs.Row.{page_words};
ghost use Rattle.tree.specs.Use.{in_use};
ghost use Rattle.tree.specs.Tree.{page_at};

use tree::TreeUse;

// Whether a page is in use: each page that a lookup or a plan meets is asked for here.
pub fn in_use(used: TreeUse, page: u32) -> bool
    ensures { result ≡ in_use used page }
{
    page < used.pages
}

// The words of a page that lies in the table: every page that is read is cut out here.
pub fn page_at(table: &[u64], page: u32) -> &[u64]
    requires { page * page_words + page_words ≤ length table.now }
    ensures { result.now ≡ page_at table.now page }
{
    let from = page as usize * tree::PAGE_WORDS;
    let to = from + tree::PAGE_WORDS;
    &table[from..to]
}
