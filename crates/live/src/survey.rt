// What entering a point has to know of a page's rows before any row is changed.
ghost use Rattle.std.specs.Prelude.{◌≡◌, cond, ◌≤◌, length, Ok};
ghost use Rattle.tree.specs.Row.{word, page_words, row_limit};
ghost use Rattle.tree.specs.Tree.{page_at, met_at};
ghost use Rattle.tree.specs.Spoiled.{spoiled};
ghost use Rattle.tree.specs.Taking.{tree_of_pages};
ghost use Rattle.live.specs.LiveHeld.{survey_among};
ghost use Rattle.live.specs.Survey.{survey_of};

use crate::live::list_live;
use crate::test::open_page;
use page::Page;
use ranges::find_place;
use rows::page_at;
use tree::{ExpectedPage, SpoiledPage, TreePages};

// How many rows a page has, how many of them are live, the row around a key, and the first row that starts at the key or above.
#[derive(Clone, Copy)]
pub struct Survey {
    pub rows: usize,
    pub live: usize,
    pub inner: Option<usize>,
    pub gain: Option<usize>,
}

// The survey of a page of so many rows, from its live rows.
fn survey_live(ranges: &[u32], places: &[u8], rows: usize, k: u16) -> Survey
    requires ranges_len_bound { length ranges.now ≤ row_limit }
    requires places_len { length places.now ≡ length ranges.now }
    ensures { result ≡ survey_among rows k ranges.now places.now }
{
    let key = k as u32;
    let inner = find_place(ranges, places, 0, key, key + 1);
    let gain = find_place(ranges, places, key, 65536, 0);
    Survey {
        rows,
        live: ranges.len(),
        inner,
        gain,
    }
}

// The survey of a page that is known to be sound.
pub fn survey_page(page: &[u64], t: u32, k: u16) -> Survey
    requires page_len { length page.now ≡ page_words }
    requires page_bound { word page.now 1 ≤ row_limit }
    ensures { result ≡ survey_of t k page.now }
{
    let rows = page[1] as usize;
    let mut ranges = [0u32; Page::ROWS];
    let mut places = [0u8; Page::ROWS];
    let count = list_live(page, rows, t, &mut ranges, &mut places);
    survey_live(&ranges[..count], &places[..count], rows, k)
}

// The survey of a page of the table that is one of the expected level and key range.
pub fn survey_sound(
    tree: TreePages,
    expected: ExpectedPage,
    t: u32,
    k: u16,
) -> Result<Survey, SpoiledPage>
    ensures { result ≡ cond (met_at (tree_of_pages tree.entry) t expected.level expected.low expected.high expected.page) (Ok (survey_of t k (page_at tree.entry.table.now expected.page))) spoiled }
{
    let mut ranges = [0u32; Page::ROWS];
    let mut places = [0u8; Page::ROWS];
    let count = open_page(tree, expected, t, &mut ranges, &mut places)?;
    let words = page_at(tree.table, expected.page);
    let rows = words[1] as usize;
    Ok(survey_live(&ranges[..count], &places[..count], rows, k))
}
