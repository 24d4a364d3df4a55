// Where the registers stand: "The radio side sees 40 bytes: 0 command, 1 to 12 operands, 13 status, 14 flags, 15 mask, 16 to 32 result."
pub const BLOCK_BYTES: usize = 40;

pub const COMMAND: usize = 0;

pub const OPERANDS: usize = 1;

pub const STATUS: usize = 13;

pub const FLAGS: usize = 14;

pub const MASK: usize = 15;

pub const RESULT: usize = 16;

// Behind the last register.
pub const REGISTERS_END: usize = 33;

// "Reset clears the block, mask 0."
pub const RESET_MASK: u8 = 0;
