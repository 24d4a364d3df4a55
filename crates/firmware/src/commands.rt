// The command stream, for C: a packet of bytes with several commands.
ghost use Rattle.std.specs.Prelude.{◌≡◌, not, length, eqb};
ghost use Rattle.command.specs.Pieces.{run_piece};
ghost use Rattle.firmware.specs.Exported.{Handed, handed_of, store_in};
ghost use Rattle.firmware.specs.Packets.{changed_places, Packet, LeavesOf};

use burst_words::EVENT_BYTES;
use c_heads::{head_of, open_count, put_head};
use pieces::run_piece;
use store::{Head, TreeMemory};

// How many places of open passes a packet may have changed, by the passes that were open and the bytes that it took. Packets are short, and the other places need not
// be written.
fn changed_places(count: u32, taken: usize) -> usize
    ensures { result ≡ changed_places count taken }
{
    count as usize + taken / EVENT_BYTES
}

// Runs as many commands of a packet as have come whole and have room for their answers. Where `ended` is not 0 no byte comes after these, so that a
// command that lacks operands is cut short. Says 1 where the run is over, and else 0.
#[unsafe(no_mangle)]
pub extern "C" fn nimbleshale_commands<'a>(
    head: &mut [u32; Head::NUMBERS],
    start_table: &'a mut [u64],
    start_roots: &'a mut [u64],
    end_table: &'a mut [u64],
    end_roots: &'a mut [u64],
    time_table: &'a mut [u64],
    time_roots: &'a mut [u64],
    input: &[u8],
    ended: u8,
    out: &mut [u8],
    taken: &mut usize,
    written: &mut usize,
) -> u8
    ensures { let before : Handed = handed_of head.old start_table.old start_roots.old end_table.old end_roots.old time_table.old time_roots.old in
        let after : Handed = handed_of head.new start_table.new start_roots.new end_table.new end_roots.new time_table.new time_roots.new in
        let said : Packet = record { over = result; taken = taken.new; written = written.new; out = out.new } in
        LeavesOf (run_piece (length out.old) (not (eqb ended 0)) (store_in before) input.now) said out.old after }
{
    let fed = run_piece(
        head_of(head),
        &mut TreeMemory {
            table: start_table,
            roots: start_roots,
        },
        &mut TreeMemory {
            table: end_table,
            roots: end_roots,
        },
        &mut TreeMemory {
            table: time_table,
            roots: time_roots,
        },
        input,
        ended != 0,
        out,
    );
    *taken = fed.taken;
    *written = fed.written;
    let places = changed_places(open_count(head), fed.taken);
    put_head(fed.head, places, head);
    fed.over as u8
}
