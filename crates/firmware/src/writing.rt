// The calls that write, for C: opening, start and end. The head is lent as an array of numbers; where a call is refused, they and every lent word stay as they are: the
// head that it hands back is the one that it got.
ghost use Rattle.std.specs.Prelude.{◌≡◌};
ghost use Rattle.store.specs.Calls.{opening, start, end};
ghost use Rattle.store.specs.Answers.{values_of};
ghost use Rattle.store.specs.Performing.{perform};
ghost use Rattle.c_answers.specs.Said.{number_said};
ghost use Rattle.firmware.specs.Exported.{Handed, handed_of, store_in, Leaves};

use c_answers::{number_of, refusal_of};
use c_heads::{UNREAD, head_of, put_head, read_head};
use store::{Head, TreeMemory, TreeView};

// A pass starts; its number goes into a lent number.
#[unsafe(no_mangle)]
pub extern "C" fn nimbleshale_start<'a>(
    head: &mut [u32; Head::NUMBERS],
    start_table: &'a mut [u64],
    start_roots: &'a mut [u64],
    end_table: &'a [u64],
    end_roots: &'a [u64],
    time_table: &'a mut [u64],
    time_roots: &'a mut [u64],
    tick: u32,
    key: u32,
    weight: u32,
    number: &mut u32,
) -> u8
    ensures leaves { let before : Handed = handed_of head.old start_table.old start_roots.old end_table.now end_roots.now time_table.old time_roots.old in
        let after : Handed = handed_of head.new start_table.new start_roots.new end_table.now end_roots.now time_table.new time_roots.new in
        Leaves (perform (store_in before) (start tick key weight)) result before after }
    ensures number_after { let before : Handed = handed_of head.old start_table.old start_roots.old end_table.now end_roots.now time_table.old time_roots.old in
        number.new ≡ number_said number.old (values_of (perform (store_in before) (start tick key weight)).answer) }
{
    let mut own_head = UNREAD;
    read_head(head, &mut own_head);
    let reply = updates::start(
        &own_head,
        &mut TreeMemory {
            table: start_table,
            roots: start_roots,
        },
        TreeView {
            table: end_table,
            roots: end_roots,
        },
        &mut TreeMemory {
            table: time_table,
            roots: time_roots,
        },
        tick,
        key,
        weight,
    );
    let after = reply.head;
    put_head(after, after.count as usize, head);
    let answer = reply.answer;
    *number = number_of(answer, *number);
    refusal_of(answer)
}

// The pass of a number ends.
#[unsafe(no_mangle)]
pub extern "C" fn nimbleshale_end<'a>(
    head: &mut [u32; Head::NUMBERS],
    start_table: &'a [u64],
    start_roots: &'a [u64],
    end_table: &'a mut [u64],
    end_roots: &'a mut [u64],
    time_table: &'a mut [u64],
    time_roots: &'a mut [u64],
    tick: u32,
    number: u32,
) -> u8
    ensures { let before : Handed = handed_of head.old start_table.now start_roots.now end_table.old end_roots.old time_table.old time_roots.old in
        let after : Handed = handed_of head.new start_table.now start_roots.now end_table.new end_roots.new time_table.new time_roots.new in
        Leaves (perform (store_in before) (end tick number)) result before after }
{
    let mut own_head = UNREAD;
    read_head(head, &mut own_head);
    let reply = updates::end(
        &own_head,
        TreeView {
            table: start_table,
            roots: start_roots,
        },
        &mut TreeMemory {
            table: end_table,
            roots: end_roots,
        },
        &mut TreeMemory {
            table: time_table,
            roots: time_roots,
        },
        tick,
        number,
    );
    let after = reply.head;
    put_head(after, after.count as usize + 1, head);
    let answer = reply.answer;
    refusal_of(answer)
}

// Opens a store in the memory that is lent.
#[unsafe(no_mangle)]
pub extern "C" fn nimbleshale_open<'a>(
    head: &mut [u32; Head::NUMBERS],
    start_table: &'a mut [u64],
    start_roots: &'a mut [u64],
    end_table: &'a mut [u64],
    end_roots: &'a mut [u64],
    time_table: &'a mut [u64],
    time_roots: &'a mut [u64],
) -> u8
    ensures { let before : Handed = handed_of head.old start_table.old start_roots.old end_table.old end_roots.old time_table.old time_roots.old in
        let after : Handed = handed_of head.new start_table.new start_roots.new end_table.new end_roots.new time_table.new time_roots.new in
        Leaves (perform (store_in before) opening) result before after }
{
    let reply = opening::open(
        head_of(head),
        &mut TreeMemory {
            table: start_table,
            roots: start_roots,
        },
        &mut TreeMemory {
            table: end_table,
            roots: end_roots,
        },
        &mut TreeMemory {
            table: time_table,
            roots: time_roots,
        },
    );
    put_head(reply.head, Head::PLACES, head);
    let answer = reply.answer;
    refusal_of(answer)
}
