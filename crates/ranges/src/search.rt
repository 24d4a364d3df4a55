// Which live row of a page a lookup or an entry is after: the first one in key order, by low key and then by place, that fits.
ghost use Rattle.std.specs.Prelude.{◌≡◌, ◌&&◌, ◌+◌, ◌≤◌, ◌<◌, length};
ghost use Rattle.tree.specs.Row.{row_limit};
ghost use Rattle.ranges.specs.Nearest.{fits, candidate, least, no_range, place_at, holder, holder_sum};

use crate::range::{holds_key, range_high, range_low};

// The number of no range: above those of all that fit.
const NO_RANGE: u32 = 16777216;

// Whether the range starts from `from` on but below `below`, and does not stop below `above`.
fn range_fits(range: u32, from: u32, below: u32, above: u32) -> bool
    ensures { result ≡ fits from below above range }
{
    if range_low(range) < from {
        return false;
    }
    if below <= range_low(range) {
        return false;
    }
    above <= range_high(range)
}

// A number that is lower for a range that is earlier in key order: low key × 256 + where it is. One that does not fit gets the highest number.
fn candidate(range: u32, at: usize, from: u32, below: u32, above: u32) -> u32
    requires { at < row_limit }
    ensures { result ≡ candidate from below above at range }
{
    if range_fits(range, from, below, above) {
        return 256 * range_low(range) + at as u32;
    }
    NO_RANGE
}

// The least of these numbers.
fn least_candidate(ranges: &[u32], from: u32, below: u32, above: u32) -> u32
    requires { length ranges.now ≤ row_limit }
    ensures { result ≡ least from below above 0 ranges.now }
{
    let mut best: u32 = NO_RANGE;
    for (at, range) in ranges.iter().enumerate() {
        best = best.min(candidate(*range, at, from, below, above));
    }
    best
}

// The place of the first row in key order whose range starts from `from` on but below `below`, and does not stop below `above`.
pub fn find_place(ranges: &[u32], places: &[u8], from: u32, below: u32, above: u32) -> Option<usize>
    requires ranges_len_bound { length ranges.now ≤ row_limit }
    requires places_len { length places.now ≡ length ranges.now }
    ensures { result ≡ place_at places.now (least from below above 0 ranges.now) }
{
    let best = least_candidate(ranges, from, below, above);
    if NO_RANGE <= best {
        return None;
    }
    Some(places[best as usize % 256] as usize)
}

// 256 + where it is for a range that holds the key, else 0.
fn holder(range: u32, at: usize, key: u32) -> u32
    requires { at < row_limit }
    ensures { result ≡ holder key at range }
{
    if holds_key(range, key) {
        return 256 + at as u32;
    }
    0
}

// These numbers added up: from 256 to 511 just where one range holds the key, and then it tells which.
fn holder_sum(ranges: &[u32], key: u32) -> u32
    requires { length ranges.now ≤ row_limit }
    ensures { result ≡ holder_sum key 0 ranges.now }
{
    let mut sum: u32 = 0;
    for (at, range) in ranges.iter().enumerate() {
        sum += holder(*range, at, key);
    }
    sum
}

// The place of the first row in key order that holds the key. In a tested page one row does, and needs no comparison with others.
pub fn find_holder(ranges: &[u32], places: &[u8], key: u32) -> Option<usize>
    requires ranges_len_bound { length ranges.now ≤ row_limit }
    requires places_len { length places.now ≡ length ranges.now }
    requires key_bound { key < 65536 }
    ensures { result ≡ place_at places.now (least 0 (key + 1) (key + 1) 0 ranges.now) }
{
    let sum = holder_sum(ranges, key);
    if sum / 256 == 1 {
        return Some(places[sum as usize % 256] as usize);
    }
    find_place(ranges, places, 0, key + 1, key + 1)
}
