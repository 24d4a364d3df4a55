// A page as a value: what a call builds before it writes a page whole.
ghost use Rattle.std.specs.Prelude.{◌≡◌, ◌+◌, ◌-◌, ◌≤◌, ◌<◌, length};
ghost use Rattle.words.specs.Overwrite.{overwrite};
ghost use Rattle.tree.specs.Row.{page_words, row_limit};
ghost use Rattle.tree.specs.Fresh.{zeros};
ghost use Rattle.page.specs.PageValue.{empty_page, with_row, two_row_root, encode_page};

use rows::{new_row, put_row, row_start};
use tree::Row;
use words::Value;

// A page: its header, and the rows in its first `count` places, since nothing is allocated.
#[derive(Clone, Copy)]
pub struct Page {
    pub level: u64,
    pub low: u16,
    pub high: u16,
    pub birth: u32,
    pub count: usize,
    pub rows: [Row; Page::ROWS],
}

impl Page {
    // The words of a page before its rows.
    pub const HEADER_WORDS: usize = tree::PAGE_HEADER_WORDS;

    // The rows that a page holds.
    pub const ROWS: usize = tree::PAGE_ROWS;

    // The words of a page.
    pub const WORDS: usize = tree::PAGE_WORDS;

    // The live rows that one new page takes; more go to two pages.
    pub const COPIED: usize = 40;

    // The rows that one entry may append to a page.
    pub const MOST_APPENDED: usize = 3;

    // The rows that a page may so get: an overflow puts so many in key order.
    pub const MOST_ROWS: usize = Page::ROWS + Page::MOST_APPENDED;

    // The words of a page's copy that has room for them.
    pub const SCRATCH_WORDS: usize = Page::HEADER_WORDS + Page::MOST_ROWS * Row::WORDS;

    // A page with no row yet.
    pub fn empty(level: u64, low: u16, high: u16, birth: u32) -> Page
        ensures { result ≡ empty_page level low high birth }
    {
        let none = Row {
            low: 0,
            high: 0,
            child: 0,
            birth: 0,
            end: 0,
            value: Value::zero(),
        };
        Page {
            level,
            low,
            high,
            birth,
            count: 0,
            rows: [none; Page::ROWS],
        }
    }

    // The page with one row more.
    pub fn with_row(mut self, row: Row) -> Page
        requires { self.count < row_limit }
        ensures { result ≡ with_row self row }
    {
        let at = self.count;
        self.rows[at] = row;
        self.count = at + 1;
        self
    }

    // A root over two halves: two rows of value zero, which meet at `middle`.
    pub fn two_row_root(level: u64, birth: u32, middle: u16, lower: u32, upper: u32) -> Page
        ensures { result ≡ two_row_root level birth middle lower upper }
    {
        let below = new_row(birth, 0, middle, lower, Value::zero());
        let above = new_row(birth, middle, words::KEY_LIMIT, upper, Value::zero());
        Page::empty(level, 0, words::KEY_LIMIT, birth)
            .with_row(below)
            .with_row(above)
    }

    // Writes the page whole into the words of its own that it is lent; the words past its rows become zero.
    pub fn write(self, words: &mut [u64])
        requires words_len { length words.old ≡ page_words }
        requires count_le_row_limit { self.count ≤ row_limit }
        ensures { words.new ≡ encode_page self }
    {
        let count = self.count;
        words[0] = self.level;
        words[1] = count as u64;
        words[2] = words::key_range(self.low, self.high);
        words[3] = self.birth as u64;
        for (place, row) in self.rows[..count].iter().enumerate() {
            put_row(words, place, *row);
        }
        clear_from(words, row_start(count));
    }
}

// Sets the words from a place on to zero.
fn clear_from(words: &mut [u64], from: usize)
    requires { from ≤ length words.old }
    ensures { words.new ≡ overwrite words.old from (zeros (length words.old - from)) }
{
    words[from..].fill(0);
}
