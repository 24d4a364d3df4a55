// The lookups of two keys at one tick from one root. Both paths begin at the root page and often have the next ones in common: a page that
// both have is tested once, as long as they stay together.
ghost use Rattle.std.specs.Prelude.{◌≡◌, ◌≤◌};
ghost use Rattle.words.specs.Words.{key_limit};
ghost use Rattle.tree.specs.Tree.{top_level};
ghost use Rattle.tree.specs.Taking.{tree_of_pages};
ghost use Rattle.tree.specs.Lookup.{lookup_from, lookup_root};
ghost use Rattle.lookup_two.specs.Together.{ForkAs};

use live::{ForTwo, read_page_for_two};
use lookup::descend_from;
use roots::{Top, find_top};
use tree::{ExpectedPage, Held, Lookup, Row, SpoiledPage, TreePages};
use words::Value;

// A row that two paths have in common, and the true value that each adds there.
#[derive(Clone, Copy)]
pub struct Shared {
    pub row: Row,
    pub lower: Value,
    pub upper: Value,
}

// Where two paths go from a page that both have: to one child page, which then must have one key range for both, or each on its own.
pub fn fork_of(level: u64, held: ForTwo<Result<Held, SpoiledPage>>) -> Option<Shared>
    ensures { ForkAs level held.lower held.upper result }
{
    if level == 0 {
        return None;
    }
    let Ok(lower) = held.lower else {
        return None;
    };
    let Ok(upper) = held.upper else {
        return None;
    };
    let row = lower.row;
    let other = upper.row;
    if other.child != row.child {
        return None;
    }
    if other.low != row.low {
        return None;
    }
    if other.high != row.high {
        return None;
    }
    Some(Shared {
        row,
        lower: lower.value,
        upper: upper.value,
    })
}

// From a page of a level and a key range down to the leaves: together as far as the paths have their pages in common, then each on its own.
pub fn descend_from_page(
    tree: TreePages,
    first: ExpectedPage,
    t: u32,
    keys: ForTwo<u16>,
) -> ForTwo<Result<Lookup, SpoiledPage>>
    requires { first.level ≤ top_level }
    ensures lower_value { result.lower ≡ lookup_from (tree_of_pages tree.entry) t keys.lower first.level first.low first.high first.page }
    ensures upper_value { result.upper ≡ lookup_from (tree_of_pages tree.entry) t keys.upper first.level first.low first.high first.page }
{
    let mut held = read_page_for_two(tree, first, t, keys.lower, keys.upper);
    let mut level = first.level;
    let mut lower_total = Value::zero();
    let mut upper_total = Value::zero();
    let mut pages: u32 = 0;
    loop {
        let Some(shared) = fork_of(level, held) else {
            break ForTwo {
                lower: descend_from(tree, held.lower, level, lower_total, pages, t, keys.lower),
                upper: descend_from(tree, held.upper, level, upper_total, pages, t, keys.upper),
            };
        };
        lower_total = lower_total.plus(shared.lower);
        upper_total = upper_total.plus(shared.upper);
        pages += 1;
        level -= 1;
        let row = shared.row;
        let child = ExpectedPage {
            page: row.child,
            level,
            low: row.low,
            high: row.high,
        };
        held = read_page_for_two(tree, child, t, keys.lower, keys.upper);
    }
}

// From the page of a root down to the leaves.
fn descend_together(
    tree: TreePages,
    top: Top,
    t: u32,
    keys: ForTwo<u16>,
) -> ForTwo<Result<Lookup, SpoiledPage>>
    requires { top.level ≤ top_level }
    ensures lower_value { result.lower ≡ lookup_from (tree_of_pages tree.entry) t keys.lower top.level 0 key_limit top.page }
    ensures upper_value { result.upper ≡ lookup_from (tree_of_pages tree.entry) t keys.upper top.level 0 key_limit top.page }
{
    let first = ExpectedPage {
        page: top.page,
        level: top.level,
        low: 0,
        high: words::KEY_LIMIT,
    };
    descend_from_page(tree, first, t, keys)
}

// The lookups of two keys from the root for t. The pages are counted for each path, also those that both have.
pub fn lookup_two_at(
    tree: TreePages,
    root: Option<u32>,
    t: u32,
    keys: ForTwo<u16>,
) -> ForTwo<Result<Lookup, SpoiledPage>>
    ensures lower_value { result.lower ≡ lookup_root (tree_of_pages tree.entry) t keys.lower root }
    ensures upper_value { result.upper ≡ lookup_root (tree_of_pages tree.entry) t keys.upper root }
{
    let Ok(top) = find_top(tree, root) else {
        return ForTwo {
            lower: Err(SpoiledPage),
            upper: Err(SpoiledPage),
        };
    };
    descend_together(tree, top, t, keys)
}
