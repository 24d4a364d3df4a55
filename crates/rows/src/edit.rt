// Edits of the rows in a page's own words.
ghost use Rattle.std.specs.Prelude.{◌≡◌, ◌+◌, ◌≤◌, length};
ghost use Rattle.tree.specs.Row.{row_start, row_words, word};
ghost use Rattle.tree.specs.RowEdits.{put_row, end_row, append_row};

use crate::row::row_start;
use tree::Row;

// Writes a row over the one at a place.
pub fn put_row(page: &mut [u64], place: usize, row: Row)
    requires { row_start place + row_words ≤ length page.old }
    ensures { page.new ≡ put_row page.old place row }
{
    let at = row_start(place);
    page[at] = words::row_keys(row.low, row.high, row.child);
    page[at + 1] = words::life(row.birth, row.end);
    let value = row.value;
    value.write(page, at + Row::VALUE_START);
}

// Ends the row at a place at t.
pub fn end_row(page: &mut [u64], place: usize, t: u32)
    requires { row_start place + row_words ≤ length page.old }
    ensures { page.new ≡ end_row page.old place t }
{
    let at = row_start(place) + 1;
    let life = page[at];
    page[at] = words::life(words::birth_of(life), t);
}

// Adds a row behind those that the page has.
pub fn append_row(page: &mut [u64], row: Row)
    requires { row_start (word page.old 1) + row_words ≤ length page.old }
    ensures { page.new ≡ append_row page.old row }
{
    let rows = page[1];
    put_row(page, rows as usize, row);
    page[1] = rows + 1;
}
