// Entering a point into a tree: from the root for its tick down, and what a root overflow does to the root list.
ghost use Rattle.std.specs.Prelude.{◌≡◌, ◌+◌, ◌≤◌, ◌<◌, length};
ghost use Rattle.tree.specs.Tree.{Tree};
ghost use Rattle.tree.specs.Use.{page_limit, roots_after, use_after};
ghost use Rattle.tree.specs.Taking.{Takes};
ghost use Rattle.tree.specs.Limits.{most_made};
ghost use Rattle.enter.specs.EnterRoot.{root_tree, RootPut, CanPut, Planned, EnteredAs};
ghost use Rattle.enter.specs.EnterWords.{point_at};

use crate::entering::enter_from;
use page::Page;
use roots::{find_root, find_top};
use split::{put_page, taken_page};
use tree::{Became, RootChange, TreePages, TreeUse};
use words::Value;

// How many root entries are in use after such a change.
fn roots_after(roots: u32, change: RootChange) -> u32
    requires { roots ≤ page_limit }
    ensures { result ≡ roots_after change roots }
{
    match change {
        RootChange::Kept => roots,
        RootChange::Added => roots + 1,
        RootChange::Replaced => roots,
    }
}

// What the tree uses after a call that took so many pages and changed the root list so.
fn use_after(used: TreeUse, made: u32, change: RootChange) -> TreeUse
    requires takes { Takes used }
    requires roots_le_page_limit { used.roots ≤ page_limit }
    requires made_le_most_made { made ≤ most_made }
    ensures { result ≡ use_after used made change }
{
    TreeUse {
        pages: used.pages + made,
        roots: roots_after(used.roots, change),
    }
}

// Puts a root born at t into the list: over the last entry where that was born at t, else behind it. Returns what the tree uses then.
fn put_root(roots: &mut [u64], used: TreeUse, made: u32, page: u32, t: u32) -> TreeUse
    requires { CanPut roots.old used made t }
    ensures { RootPut roots.old used made page t roots.new result }
{
    let count = used.roots as usize;
    let entry = words::root_entry(t, page);
    let last = roots[count - 1];
    if words::root_birth(last) == t {
        roots[count - 1] = entry;
        return use_after(used, made, RootChange::Replaced);
    }
    roots[count] = entry;
    use_after(used, made, RootChange::Added)
}

// Enters a point that was planned and has room; it cannot refuse. Returns what the tree uses then.
pub fn enter(
    table: &mut [u64],
    roots: &mut [u64],
    used: TreeUse,
    t: u32,
    k: u16,
    value: Value,
) -> TreeUse
    requires { Planned (record { table = table.now; roots = roots.old; used = used }) (point_at t k value) }
    ensures { EnteredAs (record { table = table.entry.now; roots = roots.old; used = used }) (point_at t k value) table.exit.now roots.new result }
{
    let root = find_root(roots, used.roots as usize, t);
    let Ok(top) = find_top(TreePages { table, used }, root) else {
        return used;
    };
    let done = enter_from(table, used, top.level, top.page, k, value, t);
    match done.became {
        Became::Stays => use_after(used, done.made, RootChange::Kept),
        Became::Copied(child) => put_root(roots, used, done.made, child.page, t),
        Became::Halved(lower, upper) => {
            let number = taken_page(used, done.made);
            put_page(
                table,
                number,
                Page::two_row_root(top.level + 1, t, lower.high, lower.page, upper.page),
            );
            put_root(roots, used, done.made + 1, number, t)
        }
    }
}
