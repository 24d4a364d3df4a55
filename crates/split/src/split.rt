// The pages that an overflow makes. The rows of the page that overflowed are copied in key order from its words, of which `order` has the entries.
ghost use Rattle.std.specs.Prelude.{◌≡◌, ◌+◌, ◌*◌, ◌-◌, ◌≤◌, ◌<◌, length};
ghost use Rattle.words.specs.Value as value;
ghost use Rattle.tree.specs.Row.{word, header_words, page_words, row_limit, copy_limit};
ghost use Rattle.tree.specs.Limits.{most_rows, most_made};
ghost use Rattle.page.specs.PageValue.{encode_page, empty_page};
ghost use Rattle.key_order.specs.Entries.{InPage};
ghost use Rattle.tree.specs.Use.{taken_page};
ghost use Rattle.tree.specs.Taking.{HasPages, Takes};
ghost use Rattle.tree.specs.Tree.{put_page};
ghost use Rattle.tree.specs.Overflow.{lower_half};
ghost use Rattle.split.specs.SplitWords.{scratch_words, Sourced, fill_page, add_rows, gain_page, copied_table, middle_key, halved_table, split_words};

use crate::done::Done;
use page::Page;
use rows::{born_at, gained_row};
use tree::{Became, Child, TreeUse};
use words::Value;

// A new page of the old page's level, with the rows of some entries of the order, each born at t and open, and a value added to the first of
// them. All is stored here, and not by functions that take and give a page, which would copy it for each row.
fn filled(words: &[u64], entries: &[u64], low: u16, high: u16, gain: Value, t: u32) -> Page
    requires header_words_in_bounds { header_words ≤ length words.now }
    requires entries_fit { length entries.now ≤ row_limit }
    requires in_page { InPage words.now entries.now }
    ensures { result ≡ gain_page gain (fill_page words.now t (empty_page (word words.now 0) low high t) entries.now) }
{
    let mut page = Page::empty(words[0], low, high, t);
    for entry in entries {
        let row = rows::row_at(words, key_order::entry_place(*entry));
        let place = page.count;
        page.rows[place] = born_at(row, t);
        page.count = place + 1;
    }
    let first = page.rows[0];
    page.rows[0] = gained_row(first, gain);
    page
}

// The total of the rows of some entries of the order.
fn total_of(words: &[u64], entries: &[u64]) -> Value
    requires { InPage words.now entries.now }
    ensures { result ≡ add_rows words.now value.zero entries.now }
{
    let mut total = Value::zero();
    for entry in entries {
        let row = rows::row_at(words, key_order::entry_place(*entry));
        total = total.plus(row.value);
    }
    total
}

// Writes a page into its own part of the table.
pub fn put_page(table: &mut [u64], number: u32, page: Page)
    requires page_words_in_bounds { (number + 1) * page_words ≤ length table.old }
    requires count_le_row_limit { page.count ≤ row_limit }
    ensures { table.new ≡ put_page table.old number (encode_page page) }
{
    let from = number as usize * Page::WORDS;
    let to = from + Page::WORDS;
    page.write(&mut table[from..to]);
}

// Writes a new page, of a number and a key range, with the rows of such entries, the first of them with a value added. The pages of a split are all made here, one after
// the other, so that they use the same stack.
fn put_rows(table: &mut [u64], child: Child, words: &[u64], entries: &[u64], gain: Value, t: u32)
    requires header_words_in_bounds { header_words ≤ length words.now }
    requires entries_fit { length entries.now ≤ row_limit }
    requires in_page { InPage words.now entries.now }
    requires page_words_in_bounds { (child.page + 1) * page_words ≤ length table.old }
    ensures { table.new ≡ put_page table.old child.page (encode_page (gain_page gain (fill_page words.now t (empty_page (word words.now 0) child.low child.high t) entries.now))) }
{
    put_page(
        table,
        child.page,
        filled(words, entries, child.low, child.high, gain, t),
    );
}

// What the live rows of a page that overflowed are taken from: its words, and the entries of its live rows at t in key order, from `start` on.
#[derive(Clone, Copy)]
struct Source<'a> {
    words: &'a [u64],
    order: &'a [u64; Page::MOST_ROWS],
    start: usize,
    t: u32,
}

// All live rows go to one new page of the old page's level and key range.
fn copy_rows(table: &mut [u64], number: u32, source: Source<'_>)
    requires sourced { Sourced source.t source.words.now source.order.now source.start }
    requires most_rows_bound { most_rows ≤ source.start + copy_limit }
    requires page_words_in_bounds { (number + 1) * page_words ≤ length table.old }
    ensures { table.new ≡ copied_table table.old number source.entry.words.now source.entry.t }
{
    let Source {
        words,
        order,
        start,
        t,
    } = source;
    let range = words[2];
    let copy = Child {
        page: number,
        low: words::low_key(range),
        high: words::high_key(range),
    };
    put_rows(table, copy, words, &order[start..], Value::zero(), t);
}

// Where the lower page's rows stop in an order that starts at `start`: it takes the larger half.
fn lower_end(start: usize) -> usize
    requires { start ≤ most_rows }
    ensures { result ≡ start + lower_half (most_rows - start) }
{
    start + (Page::MOST_ROWS - start + 1) / 2
}

// The live rows go to two new pages, which are cut at the low key of the upper page's first row: that key is the result.
fn halve_rows(table: &mut [u64], first: u32, second: u32, source: Source<'_>) -> u16
    requires sourced { Sourced source.t source.words.now source.order.now source.start }
    requires copy_limit_bound { source.start + copy_limit < most_rows }
    requires page_words_in_bounds { (first + 1) * page_words ≤ length table.old }
    requires page_words_in_bounds_2 { (second + 1) * page_words ≤ length table.old }
    ensures value { result ≡ middle_key source.entry.words.now source.entry.t }
    ensures table_after { table.new ≡ halved_table table.old first second source.entry.words.now source.entry.t }
{
    let Source {
        words,
        order,
        start,
        t,
    } = source;
    let cut = lower_end(start);
    let range = words[2];
    let middle = rows::row_at(words, key_order::entry_place(order[cut])).low;
    let lower = Child {
        page: first,
        low: words::low_key(range),
        high: middle,
    };
    let upper = Child {
        page: second,
        low: middle,
        high: words::high_key(range),
    };
    let below = total_of(words, &order[start..cut]);
    put_rows(table, lower, words, &order[start..cut], Value::zero(), t);
    put_rows(table, upper, words, &order[cut..], below, t);
    middle
}

// The number of the i-th page that a call takes, counted from 0.
pub fn taken_page(used: TreeUse, i: u32) -> u32
    requires takes { Takes used }
    requires i_le_most_made { i ≤ most_made }
    ensures { result ≡ taken_page used i }
{
    used.pages + i
}

// Step 5: the live rows of a page that has too many go to one new page, or to two, which are taken.
pub fn split_page(table: &mut [u64], used: TreeUse, made: u32, words: &[u64], t: u32) -> Done
    requires words_len { length words.now ≡ scratch_words }
    requires words_bound { word words.now 1 ≤ most_rows }
    requires made_lt_most_made { made < most_made }
    requires takes { Takes used }
    requires has_pages { HasPages table.old used (split_words table.old used made words.now t).made }
    ensures table_after { table.new ≡ (split_words table.old used made words.now t).table }
    ensures made_value { result.made ≡ (split_words table.old used made words.now t).made }
    ensures became_value { result.became ≡ (split_words table.old used made words.now t).became }
{
    let mut order = [0u64; Page::MOST_ROWS];
    let start = key_order::key_order(words, words[1] as usize, t, &mut order);
    let source = Source {
        words,
        order: &order,
        start,
        t,
    };
    let number = taken_page(used, made);
    let range = words[2];
    let low = words::low_key(range);
    let high = words::high_key(range);
    if Page::MOST_ROWS - start <= Page::COPIED {
        copy_rows(table, number, source);
        let copy = Child {
            page: number,
            low,
            high,
        };
        return Done {
            became: Became::Copied(copy),
            made: made + 1,
        };
    }
    let second = taken_page(used, made + 1);
    let middle = halve_rows(table, number, second, source);
    let lower = Child {
        page: number,
        low,
        high: middle,
    };
    let upper = Child {
        page: second,
        low: middle,
        high,
    };
    Done {
        became: Became::Halved(lower, upper),
        made: made + 2,
    }
}
