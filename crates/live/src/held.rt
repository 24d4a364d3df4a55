// One page of a lookup: the row that holds (t, k), and its true value.
ghost use Rattle.std.specs.Prelude.{◌≡◌, cond, ◌+◌, ◌≤◌, length, ltb};
ghost use Rattle.words.specs.Value.{value_at};
ghost use Rattle.words.specs.Value as value;
ghost use Rattle.tree.specs.Row.{row_start, row_words, value_start, row_limit};
ghost use Rattle.tree.specs.Taking.{tree_of_pages};
ghost use Rattle.ranges.specs.KeyRanges.{range_low};
ghost use Rattle.live.specs.LiveRows.{AllIn};
ghost use Rattle.live.specs.LiveHeld.{add_below, held_among};
ghost use Rattle.live.specs.Tested.{ListsFit, held_tested, opened};

use crate::test::open_page;
use page::Page;
use ranges::{find_holder, range_low};
use rows::{page_at, row_at, row_start};
use tree::{ExpectedPage, Held, Row, SpoiledPage, TreePages};
use words::Value;

// What belongs to each of two keys that are looked up together.
#[derive(Clone, Copy)]
pub struct ForTwo<T> {
    pub lower: T,
    pub upper: T,
}

// The value of the row at a place.
fn value_of(page: &[u64], place: usize) -> Value
    requires { row_start place + row_words ≤ length page.now }
    ensures { result ≡ value_at page.now (row_start place + value_start) }
{
    Value::read(page, row_start(place) + Row::VALUE_START)
}

// 1 for a range that starts below `low`, else 0. It is reckoned and not compared, so that no branch comes of it.
fn one_if_below(range: u32, low: u32) -> u64
    requires { low ≤ 65536 }
    ensures { result ≡ cond (ltb (range_low range) low) 1 0 }
{
    ((65535 + low - range_low(range)) / 65536) as u64
}

// The values of the rows whose low key is below `low`. Every value is read, and added once or no times, so that no branch depends on a row.
fn total_below(page: &[u64], ranges: &[u32], places: &[u8], low: u32) -> Value
    requires places_len { length places.now ≡ length ranges.now }
    requires all_in { AllIn page.now places.now }
    requires low_bound { low ≤ 65536 }
    ensures { result ≡ add_below page.now low value.zero ranges.now places.now }
{
    let mut total = Value::zero();
    // A `zip` with the places is slower here: its loop has two pointers to move.
    for (at, range) in ranges.iter().enumerate() {
        let own = value_of(page, places[at] as usize);
        total = total.plus(own.times(one_if_below(*range, low)));
    }
    total
}

// The first row in key order that holds k, with its own value and those of the rows with a lower low key.
fn held_row(page: &[u64], ranges: &[u32], places: &[u8], k: u16) -> Result<Held, SpoiledPage>
    requires ranges_len_bound { length ranges.now ≤ row_limit }
    requires places_len { length places.now ≡ length ranges.now }
    requires all_in { AllIn page.now places.now }
    ensures { result ≡ held_among page.now ranges.now places.now k }
{
    let Some(place) = find_holder(ranges, places, k as u32) else {
        return Err(SpoiledPage);
    };
    let row = row_at(page, place);
    let below = total_below(page, ranges, places, row.low as u32);
    let own = row.value;
    Ok(Held {
        row,
        value: own.plus(below),
    })
}

// What the listed rows of a page that was opened have for k. A spoiled page is told from a sound one here and not by the callers, which are so
// short that the compiler joins them to a descent.
fn held_tested(
    table: &[u64],
    page: u32,
    tested: Result<usize, SpoiledPage>,
    ranges: &[u32],
    places: &[u8],
    k: u16,
) -> Result<Held, SpoiledPage>
    requires { ListsFit table.now page ranges.now places.now tested }
    ensures { result ≡ held_tested table.now page ranges.now places.now k tested }
{
    let count = tested?;
    held_row(page_at(table, page), &ranges[..count], &places[..count], k)
}

// What a page of the table has for (t, k), where it is one of the expected level and key range: the row that holds (t, k), and its true value.
pub fn read_page(
    tree: TreePages,
    expected: ExpectedPage,
    t: u32,
    k: u16,
) -> Result<Held, SpoiledPage>
    ensures { result ≡ opened (tree_of_pages tree.entry) t k expected.level expected.low expected.high expected.page }
{
    let mut ranges = [0u32; Page::ROWS];
    let mut places = [0u8; Page::ROWS];
    let tested = open_page(tree, expected, t, &mut ranges, &mut places);
    held_tested(tree.table, expected.page, tested, &ranges, &places, k)
}

// The same for two keys: the test, the dear part, is made once.
pub fn read_page_for_two(
    tree: TreePages,
    expected: ExpectedPage,
    t: u32,
    lower_key: u16,
    upper_key: u16,
) -> ForTwo<Result<Held, SpoiledPage>>
    ensures lower_value { result.lower ≡ opened (tree_of_pages tree.entry) t lower_key expected.level expected.low expected.high expected.page }
    ensures upper_value { result.upper ≡ opened (tree_of_pages tree.entry) t upper_key expected.level expected.low expected.high expected.page }
{
    let mut ranges = [0u32; Page::ROWS];
    let mut places = [0u8; Page::ROWS];
    let tested = open_page(tree, expected, t, &mut ranges, &mut places);
    let lower = held_tested(
        tree.table,
        expected.page,
        tested,
        &ranges,
        &places,
        lower_key,
    );
    let upper = held_tested(
        tree.table,
        expected.page,
        tested,
        &ranges,
        &places,
        upper_key,
    );
    ForTwo { lower, upper }
}
