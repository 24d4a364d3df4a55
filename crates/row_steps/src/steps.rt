// The steps of an entry on the words of one page.
ghost use Rattle.std.specs.Prelude.{◌≡◌, ◌+◌, ◌≤◌, ◌<◌, length};
ghost use Rattle.tree.specs.Row.{row_start, row_words, word};
ghost use Rattle.tree.specs.Limits.{most_appended};
ghost use Rattle.tree.specs.RowSteps.{cut_at, linked_to};
ghost use Rattle.row_steps.specs.PageEdits.{replace_words, gain_words, cut_words, leaf_words, link_words, change_words, Within, ChangeWithin};

use rows::{born_at, gained_row};
use tree::{Became, Child, Row};
use words::Value;

// What an entry does to one page, by the places of rows that the survey of the page found: to a leaf, to a lowest page above the leaves, or
// to a page above the lowest, whose row at `place` follows what the page below became.
#[derive(Clone, Copy)]
pub enum Change {
    Leaf {
        inner: Option<usize>,
        gain: Option<usize>,
        key: u16,
    },
    Lowest(Option<usize>),
    Above {
        place: usize,
        gain: Option<usize>,
        became: Became,
    },
}

// The row up to key k.
fn cut_row(row: Row, k: u16) -> Row
    ensures { result ≡ cut_at k row }
{
    Row { high: k, ..row }
}

// The row over another child page.
fn linked_row(row: Row, child: Child) -> Row
    ensures { result ≡ linked_to child row }
{
    Row {
        low: child.low,
        high: child.high,
        child: child.page,
        ..row
    }
}

// A row born at t is written over where it is; another one ends at t, and what it becomes is added behind the rows.
fn replace_row(page: &mut [u64], place: usize, old: Row, new: Row, t: u32)
    requires place_bound { place < word page.old 1 }
    requires page_in_bounds { row_start (word page.old 1 + 1) ≤ length page.old }
    ensures { page.new ≡ replace_words t page.old place old new }
{
    if old.birth == t {
        rows::put_row(page, place, new);
        return;
    }
    rows::end_row(page, place, t);
    rows::append_row(page, born_at(new, t));
}

// The row at a place returns with a point's value added.
fn gain_at(page: &mut [u64], place: usize, value: Value, t: u32)
    requires place_bound { place < word page.old 1 }
    requires page_in_bounds { row_start (word page.old 1 + 1) ≤ length page.old }
    ensures { page.new ≡ gain_words t value page.old (Some place) }
{
    let old = rows::row_at(page, place);
    replace_row(page, place, old, gained_row(old, value), t);
}

// The first row from the key on gains the point, if there is one.
fn gain_row(page: &mut [u64], gain: Option<usize>, value: Value, t: u32)
    requires within { Within (word page.old 1) gain }
    requires page_in_bounds { row_start (word page.old 1 + 1) ≤ length page.old }
    ensures { page.new ≡ gain_words t value page.old gain }
{
    if let Some(place) = gain {
        gain_at(page, place, value, t);
    }
}

// The row around the key becomes two: up to the key with its value, and from the key on with the point's.
fn cut_at(page: &mut [u64], place: usize, k: u16, value: Value, t: u32)
    requires place_bound { place < word page.old 1 }
    requires page_in_bounds { row_start (word page.old 1 + 2) ≤ length page.old }
    ensures { page.new ≡ cut_words t k value page.old place }
{
    let old = rows::row_at(page, place);
    replace_row(page, place, old, cut_row(old, k), t);
    rows::append_row(page, rows::new_row(t, k, old.high, 0, value));
}

// A leaf takes the point.
fn edit_leaf(
    page: &mut [u64],
    inner: Option<usize>,
    gain: Option<usize>,
    k: u16,
    value: Value,
    t: u32,
)
    requires within { Within (word page.old 1) inner }
    requires within_2 { Within (word page.old 1) gain }
    requires page_in_bounds { row_start (word page.old 1 + 2) ≤ length page.old }
    ensures { page.new ≡ leaf_words t k value page.old inner gain }
{
    match inner {
        Some(place) => cut_at(page, place, k, value, t),
        None => gain_row(page, gain, value, t),
    }
}

// The row for a page that was split returns with the new child; a second child gets a row of value zero.
fn link_halves(page: &mut [u64], place: usize, old: Row, lower: Child, upper: Child, t: u32)
    requires place_bound { place < word page.old 1 }
    requires page_in_bounds { row_start (word page.old 1 + 2) ≤ length page.old }
    ensures { page.new ≡ link_words t page.old place old (Became.Halved lower upper) }
{
    replace_row(page, place, old, linked_row(old, lower), t);
    let nothing = Value::zero();
    rows::append_row(
        page,
        rows::new_row(t, upper.low, upper.high, upper.page, nothing),
    );
}

fn link_row(page: &mut [u64], place: usize, old: Row, became: Became, t: u32)
    requires place_bound { place < word page.old 1 }
    requires page_in_bounds { row_start (word page.old 1 + 2) ≤ length page.old }
    ensures { page.new ≡ link_words t page.old place old became }
{
    match became {
        Became::Stays => {}
        Became::Copied(child) => replace_row(page, place, old, linked_row(old, child), t),
        Became::Halved(lower, upper) => link_halves(page, place, old, lower, upper, t),
    }
}

// A page above the lowest one: the row is read before it may gain, since the definition links the row that stood there.
fn gain_and_link(
    page: &mut [u64],
    place: usize,
    gain: Option<usize>,
    became: Became,
    value: Value,
    t: u32,
)
    requires change_within { ChangeWithin (word page.old 1) (Change.Above place gain became) }
    requires most_appended_in_bounds { row_start (word page.old 1 + most_appended) ≤ length page.old }
    ensures { page.new ≡ change_words t value page.old (Change.Above place gain became) }
{
    let row = rows::row_at(page, place);
    gain_row(page, gain, value, t);
    link_row(page, place, row, became, t);
}

// Changes a page that has room for the rows that an entry may append.
pub fn change_words(page: &mut [u64], change: Change, value: Value, t: u32)
    requires change_within { ChangeWithin (word page.old 1) change }
    requires most_appended_in_bounds { row_start (word page.old 1 + most_appended) ≤ length page.old }
    ensures { page.new ≡ change_words t value page.old change }
{
    match change {
        Change::Leaf { inner, gain, key } => edit_leaf(page, inner, gain, key, value, t),
        Change::Lowest(gain) => gain_row(page, gain, value, t),
        Change::Above {
            place,
            gain,
            became,
        } => gain_and_link(page, place, gain, became, value, t),
    }
}
