// The test of a root: whether a descent may start at its page.
ghost use Rattle.std.specs.Prelude.{◌≡◌};
ghost use Rattle.tree.specs.Taking.{tree_of_pages};
ghost use Rattle.roots.specs.TopPage.{top_of};

use rows::{in_use, page_at};
use tree::{SpoiledPage, TreePages, TreeUse};

// Where a lookup or an entry starts: the page of a root and its level.
#[derive(Clone, Copy)]
pub struct Top {
    pub page: u32,
    pub level: u64,
}

// The page of a root and its level, if the page is in use and its level is one that a root may have.
pub fn find_top(tree: TreePages, root: Option<u32>) -> Result<Top, SpoiledPage>
    ensures { result ≡ top_of (tree_of_pages tree.entry) root }
{
    let Some(page) = root else {
        return Err(SpoiledPage);
    };
    if !in_use(tree.used, page) {
        return Err(SpoiledPage);
    }
    let words = page_at(tree.table, page);
    let level = words[0];
    if TreeUse::TOP_LEVEL < level {
        return Err(SpoiledPage);
    }
    Ok(Top { page, level })
}
