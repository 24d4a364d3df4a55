// Entering a point: the descent calls itself on the child page, and each page is edited on the way back up.
ghost use Rattle.std.specs.Prelude.{◌≡◌, ◌+◌, ◌*◌, ◌≤◌, ◌<◌, length, take};
ghost use Rattle.tree.specs.Row.{page_words, row_limit, word};
ghost use Rattle.tree.specs.Tree.{page_at, put_page};
ghost use Rattle.split.specs.SplitWords.{scratch_words};
ghost use Rattle.row_steps.specs.PageEdits.{ChangeWithin};
ghost use Rattle.enter.specs.EnterWords.{point_at, settled, made_so, changed, leaf_edited, DoneAs, CanSettle, CanEnter};
ghost use Rattle.tree.specs.Enter.{enter_from};
ghost use Rattle.tree.specs.Taking.{rootless};

use page::Page;
use row_steps::{Change, change_words};
use rows::page_at;
use split::{Done, split_page};
use tree::{Became, TreeUse};
use words::Value;

// A page of at most so many rows has room in its own words for those that one entry may append.
const ROOMY_ROWS: usize = Page::ROWS - Page::MOST_APPENDED;

// Writes the copy back into the page's own words.
fn store_page(table: &mut [u64], page: u32, words: &[u64])
    requires words_len { length words.now ≡ scratch_words }
    requires page_words_in_bounds { page * page_words + page_words ≤ length table.old }
    ensures { table.new ≡ put_page table.old page (take page_words words.now) }
{
    let from = page as usize * Page::WORDS;
    let to = from + Page::WORDS;
    let kept = &words[..Page::WORDS];
    table[from..to].copy_from_slice(kept);
}

// The edited copy goes back into the page, or its live rows into new pages.
fn settle_page(
    table: &mut [u64],
    used: TreeUse,
    made: u32,
    page: u32,
    words: &[u64],
    t: u32,
) -> Done
    requires { CanSettle used t (made_so table.old made) page words.now }
    ensures { DoneAs (settled used t (made_so table.old made) page words.now) table.new result }
{
    if words[1] as usize <= Page::ROWS {
        store_page(table, page, words);
        return Done {
            became: Became::Stays,
            made,
        };
    }
    split_page(table, used, made, words, t)
}

// Changes one page: in its own words where it cannot overflow, else in scratch words, which then go back into it or into new pages.
// They are made here, behind the test, so that only a page that may overflow pays for them; and they are not alive while the descent
// calls itself, so that a level of the recursion needs few words of stack.
fn change_page(
    table: &mut [u64],
    used: TreeUse,
    made: u32,
    page: u32,
    change: Change,
    value: Value,
    t: u32,
) -> Done
    requires page_bound { word (page_at table.old page) 1 ≤ row_limit }
    requires change_within { ChangeWithin (word (page_at table.old page) 1) change }
    requires can_settle { CanSettle used t (made_so table.old made) page (changed t value table.old page change) }
    ensures { DoneAs (settled used t (made_so table.old made) page (changed t value table.old page change)) table.new result }
{
    let from = page as usize * Page::WORDS;
    let to = from + Page::WORDS;
    if table[from + 1] as usize <= ROOMY_ROWS {
        change_words(&mut table[from..to], change, value, t);
        return Done {
            became: Became::Stays,
            made,
        };
    }
    let mut scratch = [0u64; Page::SCRATCH_WORDS];
    scratch[..Page::WORDS].copy_from_slice(page_at(table, page));
    change_words(&mut scratch, change, value, t);
    settle_page(table, used, made, page, &scratch, t)
}

// The lowest page of a descent that reaches a leaf.
fn enter_leaf(table: &mut [u64], used: TreeUse, page: u32, k: u16, value: Value, t: u32) -> Done
    requires page_bound { word (page_at table.old page) 1 ≤ row_limit }
    requires can_settle { CanSettle used t (made_so table.old 0) page (leaf_edited t k value table.old page) }
    ensures { DoneAs (settled used t (made_so table.old 0) page (leaf_edited t k value table.old page)) table.new result }
{
    let survey = live::survey_page(page_at(table, page), t, k);
    let leaf = Change::Leaf {
        inner: survey.inner,
        gain: survey.gain,
        key: k,
    };
    change_page(table, used, 0, page, leaf, value, t)
}

// Enters the point from a page down: the call goes to the child page first, the level falling, and changes this page when it comes back.
pub fn enter_from(
    table: &mut [u64],
    used: TreeUse,
    level: u64,
    page: u32,
    k: u16,
    value: Value,
    t: u32,
) -> Done
    requires { CanEnter (rootless table.old used) (point_at t k value) level page }
    ensures { DoneAs (enter_from (rootless table.old used) (point_at t k value) level page) table.new result }
{
    if level == 0 {
        return enter_leaf(table, used, page, k, value, t);
    }
    let words = page_at(table, page);
    let survey = live::survey_page(words, t, k);
    let Some(place) = survey.inner else {
        return change_page(table, used, 0, page, Change::Lowest(survey.gain), value, t);
    };
    let row = rows::row_at(words, place);
    let below = enter_from(table, used, level - 1, row.child, k, value, t);
    let above = Change::Above {
        place,
        gain: survey.gain,
        became: below.became,
    };
    change_page(table, used, below.made, page, above, value, t)
}
