// Reset, read, line, and the writes that run no command.
ghost use Rattle.std.specs.Prelude.{◌≡◌};
ghost use Rattle.register_block.specs.Block.{clear_block, read_block, line_high, register_written};

use crate::layout::{BLOCK_BYTES, COMMAND, FLAGS, MASK, REGISTERS_END, STATUS};
use flag_bits::{any_of_both, cleared, flag_byte, flags_in};

// "Reset clears the block": all zero but the mask.
pub fn reset(block: &mut [u8; BLOCK_BYTES], mask: u8)
    ensures { block.new ≡ clear_block mask }
{
    *block = [0; BLOCK_BYTES];
    block[MASK] = mask;
}

// The byte that the radio side reads at an offset.
pub fn read(block: &[u8; BLOCK_BYTES], offset: usize) -> u8
    ensures { result ≡ read_block block.now offset }
{
    if offset == FLAGS {
        return flag_byte(flags_in(block[FLAGS]));
    }
    if offset < REGISTERS_END {
        return block[offset];
    }
    0
}

// "The interrupt line is high exactly if a flag and its mask bit are both set."
pub fn line_high(block: &[u8; BLOCK_BYTES]) -> bool
    ensures { result ≡ line_high block.now }
{
    any_of_both(flags_in(block[FLAGS]), flags_in(block[MASK]))
}

// A write that runs no command: of flags, mask and operands. "Status and result can't be written", "other offsets [...] ignore writes".
pub fn write_register(block: &mut [u8; BLOCK_BYTES], offset: usize, value: u8)
    ensures { block.new ≡ register_written block.old offset value }
{
    if offset == FLAGS {
        block[FLAGS] = flag_byte(cleared(flags_in(block[FLAGS]), flags_in(value)));
        return;
    }
    if offset == MASK {
        block[MASK] = value;
        return;
    }
    if COMMAND < offset && offset < STATUS {
        block[offset] = value;
    }
}
