// Pages opened, by the words that the store holds: the lengths of the paths of a call's lookups.
ghost use Rattle.std.specs.Prelude.{◌≤◌};
ghost use Rattle.tree.specs.Row.{row_limit};

use pass_list::{Asked, Window};
use store::{StoreView, TreeName, TreeView};
use tree::Row;

// A word of a lent slice, and 0 beyond its end.
pub fn word_at(slice: &[u64], at: usize) -> u64 {
    slice.get(at).copied().unwrap_or(0)
}

// "The root for tick t is the entry in the highest place with birth ≤ t." Its page.
fn root_page(roots: &[u64], used: u32, t: u32) -> u32 {
    for place in (0..used).rev() {
        let entry = word_at(roots, place as usize);
        if words::root_birth(entry) <= t {
            return words::root_page(entry);
        }
    }
    0
}

// Whether a row, by its first two words, is live at t and has low key ≤ k < high key.
fn holds(keys: u64, life: u64, t: u32, k: u32) -> bool {
    words::birth_of(life) <= t
        && t < words::end_of(life)
        && words::low_key(keys) as u32 <= k
        && k < words::high_key(keys) as u32
}

// How many rows a page has.
fn row_count(table: &[u64], page: u32) -> usize
    ensures { result ≤ row_limit }
{
    let rows = word_at(table, page as usize * tree::PAGE_WORDS + 1);
    (rows as usize).min(tree::PAGE_ROWS)
}

// The child of the row that holds (t, k).
fn child(table: &[u64], page: u32, t: u32, k: u32) -> u32 {
    let from = page as usize * tree::PAGE_WORDS + tree::PAGE_HEADER_WORDS;
    for row in 0..row_count(table, page) {
        let keys = word_at(table, from + Row::WORDS * row);
        let life = word_at(table, from + Row::WORDS * row + 1);
        if holds(keys, life, t, k) {
            return words::child_page(keys);
        }
    }
    0
}

// "The path of a lookup is the root for t, then from each page above level 0 the child of the row that is live at t and has low key ≤ k <
// high key. Pages opened is the number of pages on it." No path is longer than four pages.
fn path_length(lent: TreeView, used: u32, t: u32, k: u32) -> u32 {
    let mut page = root_page(lent.roots, used, t);
    for length in 1..5 {
        if word_at(lent.table, page as usize * tree::PAGE_WORDS) == 0 {
            return length;
        }
        page = child(lent.table, page, t, k);
    }
    5
}

// The two paths of one tree that a question over the keys k1 to k2 of a window follows at t; with k1 = 0 it is one.
fn band_length(lent: TreeView, used: u32, t: u32, window: Window) -> u32 {
    let high = path_length(lent, used, t, window.k2.wrapping_sub(1));
    if window.k1 == 0 {
        return high;
    }
    let low = path_length(lent, used, t, window.k1 - 1);
    high.wrapping_add(low)
}

// The paths that it follows before tick t. No tick is before 0: "t1 = 0 looks up none".
fn length_before(lent: TreeView, used: u32, t: u32, window: Window) -> u32 {
    if t == 0 {
        return 0;
    }
    band_length(lent, used, t - 1, window)
}

// The pages that a question opens, "a page on two paths counted twice".
fn question_pages(store: &StoreView, window: Window) -> u32 {
    let starts = length_before(store.starts, store.head.starts.roots, window.t2, window);
    let ends = length_before(store.ends, store.head.ends.roots, window.t1, window);
    starts.wrapping_add(ends)
}

// The pages that bat-time opens: "its lookups are at t2 - 1 and, with t1 above 0, at t1 - 1", all in the tree of time.
fn time_pages(store: &StoreView, window: Window) -> u32 {
    let used = store.head.time.roots;
    let until = length_before(store.time, used, window.t2, window);
    let before = length_before(store.time, used, window.t1, window);
    until.wrapping_add(before)
}

// The pages that a lookup of one of the trees opens. The calls find a tree's memory and use in `StoreView` and `Head`; what looks at them shares no code with them.
fn lookup_pages(store: &StoreView, tree: TreeName, t: u32, k: u32) -> u32 {
    let head = store.head;
    match tree {
        TreeName::Starts => path_length(store.starts, head.starts.roots, t, k),
        TreeName::Ends => path_length(store.ends, head.ends.roots, t, k),
        TreeName::Time => path_length(store.time, head.time.roots, t, k),
    }
}

// The pages that a call opens that only reads, if it is not refused.
pub fn pages_opened(store: &StoreView, asked: Asked) -> u32 {
    match asked {
        Asked::Question(window) => question_pages(store, window),
        Asked::BatTime(window) => time_pages(store, window),
        Asked::Lookup { tree, t, k } => lookup_pages(store, tree, t, k),
    }
}

// "A tree is as many pages high as the level of its last root plus 1."
pub fn height(lent: TreeView, used: u32) -> u64 {
    let last = used.wrapping_sub(1);
    let page = words::root_page(word_at(lent.roots, last as usize));
    word_at(lent.table, page as usize * tree::PAGE_WORDS).wrapping_add(1)
}
