// The flags of the register block as the bits of a byte.
#![tactic(auto)]

mod bits;

pub use bits::{any_of_both, cleared, flag_byte, flags_in};
