// Refusal 26: the test of a page, on its own words and in the table.
ghost use Rattle.std.specs.Prelude.{◌≡◌, length};
ghost use Rattle.tree.specs.Row.{page_words, row_limit};
ghost use Rattle.tree.specs.PageTest.{header_fits, sound_at};
ghost use Rattle.tree.specs.Tree.{page_at, met_at};
ghost use Rattle.tree.specs.Taking.{tree_of_pages};
ghost use Rattle.live.specs.Tested.{TestedAs};

use crate::live::list_live;
use page::Page;
use rows::{in_use, page_at};
use tiles::tiles;
use tree::{ExpectedPage, SpoiledPage, TreePages};

// Whether the page has the expected level and key range and from 1 to 64 rows.
fn header_fits(page: &[u64], expected: ExpectedPage) -> bool
    requires { length page.now ≡ page_words }
    ensures { result ≡ header_fits expected.level expected.low expected.high page.now }
{
    if page[0] != expected.level {
        return false;
    }
    if page[1] < 1 {
        return false;
    }
    if (Page::ROWS as u64) < page[1] {
        return false;
    }
    page[2] == words::key_range(expected.low, expected.high)
}

// Tests the page for 26 at t, its header and that its live rows hold each key of its range once, none of them empty.
// Leaves the live rows of a sound page at the front of `ranges` and `places`, and tells how many they are.
fn list_tested(
    page: &[u64],
    expected: ExpectedPage,
    t: u32,
    ranges: &mut [u32],
    places: &mut [u8],
) -> Result<usize, SpoiledPage>
    requires page_len { length page.now ≡ page_words }
    requires ranges_len { length ranges.old ≡ row_limit }
    requires places_len { length places.old ≡ row_limit }
    ensures { TestedAs (sound_at t expected.level expected.low expected.high page.now) t page.now ranges.new places.new result }
{
    if header_fits(page, expected) {
        let rows = page[1] as usize;
        let count = list_live(page, rows, t, ranges, places);
        if tiles(&ranges[..count], expected.low, expected.high) {
            return Ok(count);
        }
    }
    Err(SpoiledPage)
}

// Opens a page of the table: it must be in use, and its words those of a page of this level and key range. Every page that
// a lookup or a plan meets is opened here. Leaves the live rows of a sound page at the front of `ranges` and `places`, and tells how many they are.
pub fn open_page(
    tree: TreePages,
    expected: ExpectedPage,
    t: u32,
    ranges: &mut [u32],
    places: &mut [u8],
) -> Result<usize, SpoiledPage>
    requires ranges_len { length ranges.old ≡ row_limit }
    requires places_len { length places.old ≡ row_limit }
    ensures { TestedAs (met_at (tree_of_pages tree.entry) t expected.level expected.low expected.high expected.page) t (page_at tree.entry.table.now expected.page) ranges.new places.new result }
{
    if in_use(tree.used, expected.page) {
        return list_tested(
            page_at(tree.table, expected.page),
            expected,
            t,
            ranges,
            places,
        );
    }
    Err(SpoiledPage)
}
