// The registers of the block, in the 40 bytes that the radio side sees.
#![tactic(auto)]

mod layout;
mod registers;
mod showing;

pub use layout::{BLOCK_BYTES, OPERANDS, RESET_MASK, STATUS};
pub use registers::{line_high, read, reset, write_register};
pub use showing::{put_command, show_answer};
