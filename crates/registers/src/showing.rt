// What a command leaves in the block.
ghost use Rattle.std.specs.Prelude.{◌≡◌, ℕ, ◌+◌, ◌≤◌, get_or, set, take, drop};
ghost use Rattle.words.specs.Overwrite.{overwrite};
ghost use Rattle.command.specs.Stream.{kind_of, operand_bytes};
ghost use Rattle.register_block.specs.Block.{command_at, operands_end, status_at, flags_at, result_at, result_count, flag_byte, flags_shown};

use crate::layout::{BLOCK_BYTES, COMMAND, FLAGS, RESULT, STATUS};
use codec::put_bytes;
use flag_bits::flag_byte;
use framing::{LONGEST_ANSWER, operand_count};
use register_block::Flags;
use store::Head;

// "each command sets all three anew".
fn flags_after(status: u8, open_count: u32) -> u8
    ensures { result ≡ flag_byte (flags_shown status open_count) }
{
    flag_byte(Flags {
        done: true,
        refused: status != 0,
        full: open_count == Head::OPEN_LIMIT,
    })
}

// Stores a command byte and returns how many bytes at the front of the block are its command, as in the stream: its own and its operands.
pub fn put_command(block: &mut [u8; BLOCK_BYTES], command: u8) -> usize
    ensures block_after { block.new ≡ set block.old command_at command }
    ensures value { result ≡ 1 + operand_bytes (kind_of command) }
    ensures upper_bound { result ≤ operands_end }
{
    block[COMMAND] = command;
    1 + operand_count(command)
}

// "Status is the first output byte and the result what follows": of an answer that is zero filled.
pub fn show_answer(block: &mut [u8; BLOCK_BYTES], answer: &[u8; LONGEST_ANSWER], open_count: u32)
    ensures { let status : ℕ = get_or answer.now 0 0 in
        let flags : ℕ = flag_byte (flags_shown status open_count) in
        block.new ≡ overwrite (set (set block.old status_at status) flags_at flags) result_at (take result_count (drop 1 answer.now)) }
{
    let status = answer[0];
    block[STATUS] = status;
    block[FLAGS] = flags_after(status, open_count);
    put_bytes(block, RESULT, &answer[1..]);
}
