// A row of a page, and what a tree's calls take and give.
use words::Value;

// A row of a page: its words, taken apart.
#[derive(Clone, Copy)]
pub struct Row {
    pub low: u16,
    pub high: u16,
    pub child: u32,
    pub birth: u32,
    pub end: u32,
    pub value: Value,
}

impl Row {
    // Where the value's words start in a row: behind the words of its keys and of its life.
    pub const VALUE_START: usize = 2;

    // The words of a row.
    pub const WORDS: usize = Row::VALUE_START + Value::WORDS;
}

// A call met a spoiled page, or no root for its tick: refusal 26.
#[derive(Clone, Copy)]
pub struct SpoiledPage;

// What a lookup finds in a sound page: the row that holds (t, k), and its true value.
#[derive(Clone, Copy)]
pub struct Held {
    pub row: Row,
    pub value: Value,
}

// The pages and the roots that a tree uses.
#[derive(Clone, Copy)]
pub struct TreeUse {
    pub pages: u32,
    pub roots: u32,
}

impl TreeUse {
    // A tree may use so many pages.
    pub const PAGE_LIMIT: u32 = 1000000;

    // The highest level that a page may have.
    pub const TOP_LEVEL: u64 = 3;
}

// A lookup's answer: the total and the pages opened.
#[derive(Clone, Copy)]
pub struct Lookup {
    pub value: Value,
    pub pages: u32,
}

// What entering a point does to the root list.
#[derive(Clone, Copy)]
pub enum RootChange {
    Kept,
    Added,
    Replaced,
}

// What entering a point would do: make so many pages, and change the root list.
#[derive(Clone, Copy)]
pub struct Plan {
    pub made: u32,
    pub root: RootChange,
}

// A page that a split made, and its key range.
#[derive(Clone, Copy)]
pub struct Child {
    pub page: u32,
    pub low: u16,
    pub high: u16,
}

// What a page became by an entry: it kept its number, or its rows went to one new page or to two.
#[derive(Clone, Copy)]
pub enum Became {
    Stays,
    Copied(Child),
    Halved(Child, Child),
}
