// A key range as one number: low key + 65,536 × high key.
ghost use Rattle.std.specs.Prelude.{◌≡◌};
ghost use Rattle.words.specs.Words.{low_key, high_key, key_range};
ghost use Rattle.ranges.specs.KeyRanges.{range_low, range_high, holds_key};

// The key range in word 0 of a row.
pub fn range_of(keys: u64) -> u32
    ensures { result ≡ key_range (low_key keys) (high_key keys) }
{
    (keys % 4294967296) as u32
}

pub fn range_low(range: u32) -> u32
    ensures { result ≡ range_low range }
{
    range % 65536
}

pub fn range_high(range: u32) -> u32
    ensures { result ≡ range_high range }
{
    range / 65536
}

pub fn holds_key(range: u32, key: u32) -> bool
    ensures { result ≡ holds_key key range }
{
    range_low(range) <= key && key < range_high(range)
}
