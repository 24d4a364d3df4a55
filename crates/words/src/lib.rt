// Words that hold several numbers, and the value that rows carry: the bottom layer of the index.
#![tactic(auto)]

mod limits;
mod pack;
mod value;

pub use limits::{KEY_LIMIT, OPEN};
pub use pack::{
    birth_of, child_page, end_of, high_key, key_range, life, low_key, root_birth, root_entry,
    root_page, row_keys,
};
pub use value::Value;
