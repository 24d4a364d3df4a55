// The head as numbers: what firmware in C hands over and is given back.
#![tactic(auto)]

mod head_read;
mod head_written;

pub use head_read::{UNREAD, head_of, open_count, read_head};
pub use head_written::put_head;
