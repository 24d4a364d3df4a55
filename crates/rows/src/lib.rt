// The rows of one page, on its own words: read, made anew, written over, ended, added.
// A function here is lent the words of one page and sees no other page; only `page_at`, which cuts these words out of the table, is lent the table.
// `in_use` tells beforehand whether the page is one to be met.
#![tactic(auto)]

mod edit;
mod row;
mod table;

pub use edit::{append_row, end_row, put_row};
pub use row::{born_at, gained_row, is_live, new_row, row_at, row_start};
pub use table::{in_use, page_at};
