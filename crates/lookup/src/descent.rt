// The lookup of one tree: from the root for the tick down to a leaf, the true values of the rows that hold (t, k) added on the way.
ghost use Rattle.std.specs.Prelude.{◌≡◌, ◌+◌, ◌≤◌, length};
ghost use Rattle.words.specs.Words.{key_limit};
ghost use Rattle.tree.specs.Tree.{top_level};
ghost use Rattle.tree.specs.Taking.{tree_of_pages, tree_with};
ghost use Rattle.tree.specs.Lookup.{lookup_from, lookup_root, lookup};
ghost use Rattle.lookup.specs.Descent.{onward, Wide, lookup_held};

use live::read_page;
use roots::{Top, find_root, find_top};
use tree::{ExpectedPage, Held, Lookup, SpoiledPage, TreePages};
use words::Value;

// From a page that is opened down to the leaf. The total and the pages opened grow on the way down, and each page is opened once.
pub fn descend_from(
    tree: TreePages,
    mut held: Result<Held, SpoiledPage>,
    mut level: u64,
    mut total: Value,
    mut pages: u32,
    t: u32,
    k: u16,
) -> Result<Lookup, SpoiledPage>
    requires wide { Wide held }
    requires level_bound { pages + level ≤ top_level }
    ensures { result ≡ onward total pages (lookup_held (tree_of_pages tree.entry) t k level held) }
{
    loop {
        let found = held?;
        total = total.plus(found.value);
        pages += 1;
        if level == 0 {
            break Ok(Lookup {
                value: total,
                pages,
            });
        }
        level -= 1;
        let row = found.row;
        let child = ExpectedPage {
            page: row.child,
            level,
            low: row.low,
            high: row.high,
        };
        held = read_page(tree, child, t, k);
    }
}

// From the page of a root down to the leaf.
fn descend(tree: TreePages, top: Top, t: u32, k: u16) -> Result<Lookup, SpoiledPage>
    requires { top.level ≤ top_level }
    ensures { result ≡ lookup_from (tree_of_pages tree.entry) t k top.level 0 key_limit top.page }
{
    let first = ExpectedPage {
        page: top.page,
        level: top.level,
        low: 0,
        high: words::KEY_LIMIT,
    };
    let held = read_page(tree, first, t, k);
    descend_from(tree, held, top.level, Value::zero(), 0, t, k)
}

// The total of the points with tick at most t and key at most k, and the pages opened for it, where the root for t was found already: what
// asks for several keys at one tick searches the root list once.
pub fn lookup_at(tree: TreePages, root: Option<u32>, t: u32, k: u16) -> Result<Lookup, SpoiledPage>
    ensures { result ≡ lookup_root (tree_of_pages tree.entry) t k root }
{
    let top = find_top(tree, root)?;
    descend(tree, top, t, k)
}

// The same from the root list.
pub fn lookup(tree: TreePages, roots: &[u64], t: u32, k: u16) -> Result<Lookup, SpoiledPage>
    requires { tree.used.roots ≤ length roots.now }
    ensures { result ≡ lookup (tree_with tree.entry roots.now) t k }
{
    let root = find_root(roots, tree.used.roots as usize, t);
    lookup_at(tree, root, t, k)
}
