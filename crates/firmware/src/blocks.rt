// The register block of the radio chip, for C: 40 lent bytes, any of which are a block.
ghost use Rattle.std.specs.Prelude.{◌≡◌, true, cond, length};
ghost use Rattle.command.specs.Stream.{is_query};
ghost use Rattle.register_block.specs.Block.{command_at, reset_mask, clear_block, read_block, line_high};
ghost use Rattle.c_heads.specs.Heads.{head_numbers};
ghost use Rattle.store.specs.Lending.{words_in, lent_to_trees};
ghost use Rattle.firmware.specs.Exported.{Handed, handed_of, store_in};
ghost use Rattle.firmware.specs.BlockCalls.{LeavesWrite};

use crate::commands::nimbleshale_commands;
use answer_codec::answer_bytes;
use c_heads::{UNREAD, open_count, read_head};
use framing::LONGEST_ANSWER;
use interpret::{answer_query, is_query};
use registers::{
    BLOCK_BYTES, OPERANDS, RESET_MASK, STATUS, line_high, put_command, read, reset, show_answer,
    write_register,
};
use store::{Head, StoreView, TreeView};

// "Reset clears the block": it is handed no store, so that it can change none.
#[unsafe(no_mangle)]
pub extern "C" fn nimbleshale_block_reset(block: &mut [u8; BLOCK_BYTES])
    ensures { block.new ≡ clear_block reset_mask }
{
    reset(block, RESET_MASK);
}

// The byte that the radio side reads at an offset.
#[unsafe(no_mangle)]
pub extern "C" fn nimbleshale_block_read(block: &[u8; BLOCK_BYTES], offset: usize) -> u8
    ensures { result ≡ read_block block.now offset }
{
    read(block, offset)
}

// 1 where the interrupt line is high, and else 0.
#[unsafe(no_mangle)]
pub extern "C" fn nimbleshale_block_line(block: &[u8; BLOCK_BYTES]) -> u8
    ensures { result ≡ cond (line_high block.now) 1 0 }
{
    line_high(block) as u8
}

// The radio side writes the byte of a query to byte 0. It leaves head and slices, so that it needs no frame with a second head.
fn write_query(
    block: &mut [u8; BLOCK_BYTES],
    code: u8,
    head: &[u32; Head::NUMBERS],
    starts: TreeView,
    ends: TreeView,
    time: TreeView,
)
    requires { is_query code ≡ true }
    ensures { let handed : Handed = record { numbers = head.now; lent = lent_to_trees (words_in starts.entry) (words_in ends.entry) (words_in time.entry) } in
        LeavesWrite handed block.old command_at code handed block.new }
{
    put_command(block, code);
    let bytes = &block[..];
    let mut own_head = UNREAD;
    read_head(head, &mut own_head);
    let store = StoreView {
        head: &own_head,
        starts,
        ends,
        time,
    };
    let answer = answer_query(&store, code, &bytes[OPERANDS..STATUS]);
    let shown = answer_bytes(answer);
    show_answer(block, &shown, open_count(head));
}

// The radio side writes a byte at an offset. Byte 0 runs a command: head and slices are left as the stream's command leaves them. What every write looks at comes first
// among the parameters, so that the processor has it at hand: a write that runs nothing, which a handler may make, returns at once.
#[unsafe(no_mangle)]
pub extern "C" fn nimbleshale_block_write<'a>(
    block: &mut [u8; BLOCK_BYTES],
    offset: usize,
    value: u8,
    head: &mut [u32; Head::NUMBERS],
    start_table: &'a mut [u64],
    start_roots: &'a mut [u64],
    end_table: &'a mut [u64],
    end_roots: &'a mut [u64],
    time_table: &'a mut [u64],
    time_roots: &'a mut [u64],
)
    ensures { let before : Handed = handed_of head.old start_table.old start_roots.old end_table.old end_roots.old time_table.old time_roots.old in
        let after : Handed = handed_of head.new start_table.new start_roots.new end_table.new end_roots.new time_table.new time_roots.new in
        LeavesWrite before block.old offset value after block.new }
{
    // Most writes are of operands, which need no head.
    if offset != 0 {
        write_register(block, offset, value);
        return;
    }
    if is_query(value) {
        write_query(
            block,
            value,
            head,
            TreeView {
                table: start_table,
                roots: start_roots,
            },
            TreeView {
                table: end_table,
                roots: end_roots,
            },
            TreeView {
                table: time_table,
                roots: time_roots,
            },
        );
        return;
    }
    // Any other command runs as a packet of its own.
    let length = put_command(block, value);
    let bytes = &block[..];
    let mut answer = [0u8; LONGEST_ANSWER];
    let mut taken: usize = 0;
    let mut written: usize = 0;
    nimbleshale_commands(
        head,
        start_table,
        start_roots,
        end_table,
        end_roots,
        time_table,
        time_roots,
        &bytes[..length],
        1,
        &mut answer,
        &mut taken,
        &mut written,
    );
    show_answer(block, &answer, open_count(head));
}
