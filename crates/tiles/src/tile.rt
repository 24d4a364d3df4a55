// Whether key ranges, in any order, hold each key of a page's range exactly once, and none of them is empty.
// It is so just where none is empty, the lowest key is held, each key at which a range stops is held again, and together they are as long as
// the page's range: then every key is held at least once, and no key twice.
ghost use Rattle.std.specs.Prelude.{◌≡◌, ◌%◌, ◌≤◌, ◌<◌, length, get_or, ltb, eqb};
ghost use Rattle.tree.specs.Row.{row_limit};
ghost use Rattle.words.specs.Sums.{sum_by, count};
ghost use Rattle.ranges.specs.KeyRanges.{holds_key};
ghost use Rattle.tiles.specs.TileTest.{is_empty, clipped, spanned, goes_on, every, stops_well, tiles, slots, Noted};

use ranges::{holds_key, range_high, range_low};

// Keys are noted in so many slots.
const SLOTS: usize = 512;

fn is_empty(range: u32) -> bool
    ensures { result ≡ is_empty range }
{
    range_high(range) <= range_low(range)
}

// How many keys of the range low to high the range has.
fn clipped(range: u32, low: u32, high: u32) -> u32
    ensures { result ≡ clipped low high range }
{
    let first = range_low(range).max(low);
    let past = range_high(range).min(high);
    past.saturating_sub(first)
}

fn count_holders(ranges: &[u32], key: u32) -> u32
    requires { length ranges.now ≤ row_limit }
    ensures { result ≡ count (holds_key key) ranges.now }
{
    let mut found: u32 = 0;
    for range in ranges {
        found += u32::from(holds_key(*range, key));
    }
    found
}

// How many keys of the range low to high the range has. An empty range counts for more than a range can have, so that one sum tells of both.
fn spanned(range: u32, low: u32, high: u32) -> u32
    ensures { result ≡ spanned low high range }
{
    if is_empty(range) {
        return 65536;
    }
    clipped(range, low, high)
}

fn spanned_total(ranges: &[u32], low: u32, high: u32) -> u32
    requires ranges_len_bound { length ranges.now ≤ row_limit }
    requires high_bound { high < 65536 }
    ensures { result ≡ sum_by (spanned low high) ranges.now }
{
    let mut total: u32 = 0;
    for range in ranges {
        total += spanned(*range, low, high);
    }
    total
}

// Notes of the keys at which a range may stop: in each slot `high` or a key that is held, the low key of a range, which has the slot
// of its last nine bits. Where two low keys have one slot, the later range's stays.
fn note_lows(ranges: &[u32], high: u16) -> [u16; SLOTS]
    requires ranges_len_bound { length ranges.now ≤ row_limit }
    requires ranges_value { count is_empty ranges.now ≡ 0 }
    ensures { Noted high ranges.now result }
{
    let mut noted = [high; SLOTS];
    for range in ranges {
        let low = range_low(*range);
        noted[low as usize % SLOTS] = low as u16;
    }
    noted
}

// Whether the key is noted.
fn is_noted(noted: &[u16; SLOTS], key: u32) -> bool
    ensures { result ≡ eqb (get_or noted.now (key % slots) 0) key }
{
    u32::from(noted[key as usize % SLOTS]) == key
}

// Whether a range holds the key, of which any note must be true. Most keys that are asked for are noted.
fn is_held(ranges: &[u32], noted: &[u16; SLOTS], key: u32) -> bool
    requires ranges_len_bound { length ranges.now ≤ row_limit }
    requires ranges_nonzero { get_or noted.now (key % slots) 0 ≡ key → 0 < count (holds_key key) ranges.now }
    ensures { result ≡ ltb 0 (count (holds_key key) ranges.now) }
{
    is_noted(noted, key) || 0 < count_holders(ranges, key)
}

// Whether a key at which a range stops lies outside the range low to high or is held.
fn goes_on(ranges: &[u32], key: u32, low: u16, high: u16) -> bool
    requires { length ranges.now ≤ row_limit }
    ensures { result ≡ goes_on low high ranges.now key }
{
    key <= u32::from(low) || u32::from(high) <= key || 0 < count_holders(ranges, key)
}

// The same, with notes. Most stops are noted, and then no range is asked.
fn stop_goes_on(ranges: &[u32], noted: &[u16; SLOTS], key: u32, low: u16, high: u16) -> bool
    requires ranges_len_bound { length ranges.now ≤ row_limit }
    requires noted { Noted high ranges.now noted.now }
    ensures { result ≡ goes_on low high ranges.now key }
{
    is_noted(noted, key) || goes_on(ranges, key, low, high)
}

fn each_goes_on(ranges: &[u32], noted: &[u16; SLOTS], low: u16, high: u16) -> bool
    requires ranges_len_bound { length ranges.now ≤ row_limit }
    requires noted { Noted high ranges.now noted.now }
    ensures { result ≡ every (stops_well low high ranges.now) ranges.now }
{
    for range in ranges {
        if !stop_goes_on(ranges, noted, range_high(*range), low, high) {
            return false;
        }
    }
    true
}

// Whether no range is empty and each key from low up to high is held by exactly one.
pub fn tiles(ranges: &[u32], low: u16, high: u16) -> bool
    requires ranges_len_bound { length ranges.now ≤ row_limit }
    requires low_lt_high { low < high }
    ensures { result ≡ tiles low high ranges.now }
{
    let first = low as u32;
    let past = high as u32;
    if spanned_total(ranges, first, past) != past - first {
        return false;
    }
    let noted = note_lows(ranges, high);
    is_held(ranges, &noted, first) && each_goes_on(ranges, &noted, low, high)
}
