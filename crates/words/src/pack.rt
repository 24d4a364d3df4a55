// The words of document 01, "Pages and rows", taken apart and put together. Every word is legal input: a part is whatever its bits say.
// A root's word is packed as a row's word 1 is. Each has its own functions, as each has its own sentence there and its own definitions: a function that both call
// would hold one expression, and all six would still be here to name theirs.
ghost use Rattle.std.specs.Prelude.{◌≡◌};
ghost use Rattle.words.specs.Words.{low_key, high_key, child_page, key_range, row_keys, birth_of, end_of, life_word};
ghost use Rattle.words.specs.Words.{root_entry, root_birth, root_page};

// The low key in a key range word or in word 0 of a row.
pub fn low_key(word: u64) -> u16
    ensures { result ≡ low_key word }
{
    (word % 65536) as u16
}

// The high key in a key range word or in word 0 of a row.
pub fn high_key(word: u64) -> u16
    ensures { result ≡ high_key word }
{
    (word / 65536 % 65536) as u16
}

// The child page in word 0 of a row.
pub fn child_page(word: u64) -> u32
    ensures { result ≡ child_page word }
{
    (word / 4294967296) as u32
}

// A key range word: word 2 of a page.
pub fn key_range(low: u16, high: u16) -> u64
    ensures { result ≡ key_range low high }
{
    low as u64 + 65536 * (high as u64)
}

// Word 0 of a row: a key range and a child page.
pub fn row_keys(low: u16, high: u16, child: u32) -> u64
    ensures { result ≡ row_keys low high child }
{
    low as u64 + 65536 * (high as u64) + 4294967296 * (child as u64)
}

// The tick of birth in word 1 of a row.
pub fn birth_of(word: u64) -> u32
    ensures { result ≡ birth_of word }
{
    (word % 4294967296) as u32
}

// The end in word 1 of a row.
pub fn end_of(word: u64) -> u32
    ensures { result ≡ end_of word }
{
    (word / 4294967296) as u32
}

// Word 1 of a row: a birth and an end.
pub fn life(birth: u32, end: u32) -> u64
    ensures { result ≡ life_word birth end }
{
    birth as u64 + 4294967296 * (end as u64)
}

// A word of the root list: the tick of birth of a root, and its page.
pub fn root_entry(birth: u32, page: u32) -> u64
    ensures { result ≡ root_entry birth page }
{
    birth as u64 + 4294967296 * (page as u64)
}

// The tick of birth in a word of the root list.
pub fn root_birth(word: u64) -> u32
    ensures { result ≡ root_birth word }
{
    (word % 4294967296) as u32
}

// The page in a word of the root list.
pub fn root_page(word: u64) -> u32
    ensures { result ≡ root_page word }
{
    (word / 4294967296) as u32
}
