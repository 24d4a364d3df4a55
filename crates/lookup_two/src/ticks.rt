// The lookups of two keys at two ticks of one tree, as an interval has them. A page that comes from memory and not from a cache takes long, its first word longest.
// So the first words of pages that do not wait for one another are read before the rest of any of them, and the waits go by together: first those of
// both roots, then those of the pages that the four paths lead to next.
ghost use Rattle.std.specs.Prelude.{◌≡◌, ◌≤◌};
ghost use Rattle.tree.specs.Tree.{top_level};
ghost use Rattle.tree.specs.Taking.{tree_of_pages};
ghost use Rattle.tree.specs.Lookup.{plus_page, lookup_root};
ghost use Rattle.roots.specs.TopPage.{TopFits};
ghost use Rattle.lookup.specs.Descent.{Wide, lookup_held};
ghost use Rattle.lookup_two.specs.Ahead.{FewPages, Begins, LeadsTo};

use crate::together::{descend_from_page, fork_of};
use live::{ForTwo, read_page_for_two};
use lookup::descend_from;
use roots::{Top, find_top};
use tree::{ExpectedPage, Held, Lookup, SpoiledPage, TreePages};
use words::Value;

// What the lookups of two keys answer at each of two ticks.
#[derive(Clone, Copy)]
pub struct LookupTicks {
    pub later: ForTwo<Result<Lookup, SpoiledPage>>,
    pub earlier: ForTwo<Result<Lookup, SpoiledPage>>,
}

// The page of a root, opened for two keys: its level, and what it has for each.
#[derive(Clone, Copy)]
struct RootPage {
    level: u64,
    held: ForTwo<Result<Held, SpoiledPage>>,
}

// Opens the page that both descents start at. Where there is none, both have met a spoiled page.
fn open_root(tree: TreePages, top: Result<Top, SpoiledPage>, t: u32, keys: ForTwo<u16>) -> RootPage
    requires top_fits { TopFits top }
    ensures level_le_top_level { result.level ≤ top_level }
    ensures begins { Begins (tree_of_pages tree.entry) t keys.lower top result.level result.held.lower }
    ensures begins_2 { Begins (tree_of_pages tree.entry) t keys.upper top result.level result.held.upper }
{
    let Ok(top) = top else {
        let spoiled = ForTwo {
            lower: Err(SpoiledPage),
            upper: Err(SpoiledPage),
        };
        return RootPage {
            level: 0,
            held: spoiled,
        };
    };
    let first = ExpectedPage {
        page: top.page,
        level: top.level,
        low: 0,
        high: words::KEY_LIMIT,
    };
    let held = read_page_for_two(tree, first, t, keys.lower, keys.upper);
    RootPage {
        level: top.level,
        held,
    }
}

// What a page has for a key, where the page that its row leads to is in use and of the next level. Where it is not, the lookup will meet a spoiled page, and has met it here.
fn look_ahead(
    tree: TreePages,
    level: u64,
    held: Result<Held, SpoiledPage>,
) -> Result<Held, SpoiledPage>
    requires level_le_top_level { level ≤ top_level }
    ensures { LeadsTo (tree_of_pages tree.entry) level held level result }
{
    if level == 0 {
        return held;
    }
    let found = held?;
    let next = find_top(tree, Some(found.row.child))?;
    if next.level != level - 1 {
        return Err(SpoiledPage);
    }
    Ok(found)
}

// The same for both keys.
fn look_ahead_for_two(tree: TreePages, root: RootPage) -> RootPage
    requires level_le_top_level { root.level ≤ top_level }
    ensures level_le_top_level_2 { result.level ≤ top_level }
    ensures leads_to { LeadsTo (tree_of_pages tree.entry) root.level root.held.lower result.level result.held.lower }
    ensures leads_to_2 { LeadsTo (tree_of_pages tree.entry) root.level root.held.upper result.level result.held.upper }
{
    let level = root.level;
    let held = root.held;
    let ahead = ForTwo {
        lower: look_ahead(tree, level, held.lower),
        upper: look_ahead(tree, level, held.upper),
    };
    RootPage { level, held: ahead }
}

// The true value of a page's row, with what the lookup finds below it.
fn add_page(value: Value, rest: Result<Lookup, SpoiledPage>) -> Result<Lookup, SpoiledPage>
    requires { FewPages rest }
    ensures { result ≡ plus_page value rest }
{
    let below = rest?;
    Ok(Lookup {
        value: value.plus(below.value),
        pages: below.pages + 1,
    })
}

// From the page of a root down to the leaves: on with both keys together where it leads them to one page.
fn descend_root(
    tree: TreePages,
    root: RootPage,
    t: u32,
    keys: ForTwo<u16>,
) -> ForTwo<Result<Lookup, SpoiledPage>>
    requires level_le_top_level { root.level ≤ top_level }
    requires wide { Wide root.held.lower }
    requires wide_2 { Wide root.held.upper }
    ensures lower_value { result.lower ≡ lookup_held (tree_of_pages tree.entry) t keys.lower root.level root.held.lower }
    ensures upper_value { result.upper ≡ lookup_held (tree_of_pages tree.entry) t keys.upper root.level root.held.upper }
{
    let level = root.level;
    let held = root.held;
    let Some(shared) = fork_of(level, held) else {
        let nothing = Value::zero();
        return ForTwo {
            lower: descend_from(tree, held.lower, level, nothing, 0, t, keys.lower),
            upper: descend_from(tree, held.upper, level, nothing, 0, t, keys.upper),
        };
    };
    let row = shared.row;
    let child = ExpectedPage {
        page: row.child,
        level: level - 1,
        low: row.low,
        high: row.high,
    };
    let below = descend_from_page(tree, child, t, keys);
    ForTwo {
        lower: add_page(shared.lower, below.lower),
        upper: add_page(shared.upper, below.upper),
    }
}

// The lookups of two keys from the roots for two ticks. The pages are counted for each path, also those that several have.
pub fn lookup_ticks_at(
    tree: TreePages,
    later: Option<u32>,
    later_tick: u32,
    earlier: Option<u32>,
    earlier_tick: u32,
    keys: ForTwo<u16>,
) -> LookupTicks
    ensures lower_value { result.later.lower ≡ lookup_root (tree_of_pages tree.entry) later_tick keys.lower later }
    ensures upper_value { result.later.upper ≡ lookup_root (tree_of_pages tree.entry) later_tick keys.upper later }
    ensures lower_value_2 { result.earlier.lower ≡ lookup_root (tree_of_pages tree.entry) earlier_tick keys.lower earlier }
    ensures upper_value_2 { result.earlier.upper ≡ lookup_root (tree_of_pages tree.entry) earlier_tick keys.upper earlier }
{
    let later_top = find_top(tree, later);
    let earlier_top = find_top(tree, earlier);
    let later_root = open_root(tree, later_top, later_tick, keys);
    let earlier_root = open_root(tree, earlier_top, earlier_tick, keys);
    let later_ahead = look_ahead_for_two(tree, later_root);
    let earlier_ahead = look_ahead_for_two(tree, earlier_root);
    LookupTicks {
        later: descend_root(tree, later_ahead, later_tick, keys),
        earlier: descend_root(tree, earlier_ahead, earlier_tick, keys),
    }
}
