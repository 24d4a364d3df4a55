// The rows of a page that are live at a tick, as two arrays in the order of the rows' places: their key ranges, and their places.
// They are not put in key order. Whether they hold each key once, which of them holds a key, and what the lower ones add up to is found
// without, by loops over small numbers that a processor takes several at a time.
ghost use Rattle.std.specs.Prelude.{◌≡◌, ◌+◌, ◌≤◌, length};
ghost use Rattle.words.specs.Words.{birth_of, end_of};
ghost use Rattle.tree.specs.Row.{row_start, row_limit, live_for};
ghost use Rattle.live.specs.LiveRows.{ended_by, Listed};

use ranges::range_of;
use rows::row_start;

// The highest word 1 of a row that ended at t or before: one comparison with it, of whole words, tells whether a row's end is after t.
fn ended_by(t: u32) -> u64
    ensures { result ≡ ended_by t }
{
    4294967296 * (t as u64) + 4294967295
}

// Whether a row with this word 1 is live at t.
fn is_live_past(life: u64, t: u32, ended: u64) -> bool
    requires { ended ≡ ended_by t }
    ensures { result ≡ live_for (birth_of life) (end_of life) t }
{
    words::birth_of(life) <= t && ended < life
}

// Leaves the page's live rows at the front of both arrays and returns how many there are. Every row is written behind the live ones so far,
// and the next is written over it unless it is live: no branch depends on a row.
// The arrays are not one struct: that was tried and proves, but a plan takes some 3 in 100 longer.
pub fn list_live(page: &[u64], rows: usize, t: u32, ranges: &mut [u32], places: &mut [u8]) -> usize
    requires rows_le_row_limit { rows ≤ row_limit }
    requires rows_in_bounds { row_start rows ≤ length page.now }
    requires ranges_len { length ranges.old ≡ row_limit }
    requires places_len { length places.old ≡ row_limit }
    ensures { Listed t page.now rows ranges.new places.new result }
{
    let ended = ended_by(t);
    let mut count: usize = 0;
    for place in 0..rows {
        let at = row_start(place);
        ranges[count] = range_of(page[at]);
        places[count] = place as u8;
        count += usize::from(is_live_past(page[at + 1], t, ended));
    }
    count
}
