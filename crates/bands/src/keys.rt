// A band of keys.
ghost use Rattle.std.specs.Prelude.{◌≤◌, ◌<◌};
ghost use Rattle.words.specs.Words.{key_limit};

// The keys from k1 up to but not k2: a band has a key, and no key is past the last one.
#[derive(Clone, Copy)]
pub struct Band {
    pub k1: u32,
    pub k2: u32,
    ghost k1_lt_k2: { k1 < k2 },
    ghost k2_le_key_limit: { k2 ≤ key_limit },
}
