// The shape of a page in a table, for every crate that finds pages there.
use crate::types::Row;

// The words of a page before its rows.
pub const PAGE_HEADER_WORDS: usize = 4;

// The rows that a page holds.
pub const PAGE_ROWS: usize = 64;

// The words of a page.
pub const PAGE_WORDS: usize = PAGE_HEADER_WORDS + PAGE_ROWS * Row::WORDS;
