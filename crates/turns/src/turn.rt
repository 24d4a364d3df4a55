// One turn of the program: read, run, write.
ghost use Rattle.std.specs.Prelude.{◌≡◌, ◌+◌, ◌*◌, ◌≤◌, ◌<◌, false, length, take, IfOk, OnOk, OnErr};
ghost use Rattle.std.specs.Io.KnownBytes.{Appends};
ghost use Rattle.store.specs.Trees.{Lent, Store};
ghost use Rattle.store.specs.Lending.{words_of, lent_to_trees, store_with, SameSlices};
ghost use Rattle.command.specs.Stream.{longest_answer};
ghost use Rattle.command.specs.Pieces.{run_piece};
ghost use Rattle.pieces.specs.Fed.{FedAs};
ghost use Rattle.turns.specs.Turns.{feed_of, most_waiting, Turned, TurnedOn, IsCutTurn};

use pieces::{Fed, run_piece};
use std::io;
use std::io::{Read, Write};
use store::{Head, TreeMemory};
use turn_input::{keep_rest, read_behind};

// What a turn leaves: the head, how many bytes wait at the front of the buffer, and whether the run is over.
#[derive(Clone, Copy)]
pub struct Left {
    pub head: Head,
    pub waiting: usize,
    pub over: bool,
}

// Runs the bytes at the front of the buffer.
fn run_front(
    head: Head,
    starts: &mut TreeMemory,
    ends: &mut TreeMemory,
    time: &mut TreeMemory,
    buffer: &[u8],
    count: usize,
    ended: bool,
    out: &mut [u8],
) -> Fed
    requires { count ≤ length buffer.now }
    ensures same_starts { SameSlices starts.old starts.new }
    ensures same_ends { SameSlices ends.old ends.new }
    ensures same_time { SameSlices time.old time.new }
    ensures fed { let s : Store = store_with head (words_of starts.old) (words_of ends.old) (words_of time.old) in
        let left : Lent = lent_to_trees (words_of starts.new) (words_of ends.new) (words_of time.new) in
        FedAs (run_piece (length out.old) ended s (take count buffer.now)) result out.old out.new left }
    ensures taken_le_count { result.taken ≤ count }
    ensures written_in_bounds { result.written ≤ length out.new }
{
    run_piece(head, starts, ends, time, &buffer[..count], ended, out)
}

// Writes so many bytes from the front of the answers.
fn write_front<W: Write>(output: &mut W, out: &[u8], written: usize) -> io::Result<()>
    requires { written ≤ length out.now }
    ensures { OnOk result (Appends (W.contents output.old) (W.contents output.new) (take written out.now)) }
{
    output.write_all(&out[..written])
}

// Room for twice the buffer and one answer more is always enough, so that what waits after a turn is a command that lacks operands: there is
// always a byte to read, and a read that brings none says that the input has ended. A read that fails leaves the tables as they were, and a write
// that fails leaves them as the bytes that came have them.
pub fn turn<R: Read, W: Write>(
    input: &mut R,
    output: &mut W,
    head: Head,
    starts: &mut TreeMemory,
    ends: &mut TreeMemory,
    time: &mut TreeMemory,
    buffer: &mut [u8],
    waiting: usize,
    out: &mut [u8],
) -> io::Result<Left>
    requires waiting_le_most_waiting { waiting ≤ most_waiting }
    requires most_waiting_in_bounds { most_waiting < length buffer.old }
    requires longest_answer_in_bounds { 2 * length buffer.old + longest_answer ≤ length out.old }
    ensures same_starts { SameSlices starts.old starts.new }
    ensures same_ends { SameSlices ends.old ends.new }
    ensures same_time { SameSlices time.old time.new }
    ensures turned { let s : Store = store_with head (words_of starts.old) (words_of ends.old) (words_of time.old) in
        IfOk result
        (λ left.
        let after : Store = store_with left.head (words_of starts.new) (words_of ends.new) (words_of time.new) in
        Turned (length out.old) (feed_of s buffer.old waiting false) (feed_of after buffer.new left.waiting left.over)) }
    ensures moves { let s : Store = store_with head (words_of starts.old) (words_of ends.old) (words_of time.old) in
        IfOk result
        (λ left.
        let after : Store = store_with left.head (words_of starts.new) (words_of ends.new) (words_of time.new) in
        TurnedOn (length out.old) (feed_of s buffer.old waiting false) (feed_of after buffer.new left.waiting left.over) (R.remaining input.old) (R.remaining input.new) (W.contents output.old) (W.contents output.new)) }
    ensures waiting_le_most_waiting_2 { IfOk result (λ left. left.over ≡ false → left.waiting ≤ most_waiting) }
    ensures cut_short { let s : Store = store_with head (words_of starts.old) (words_of ends.old) (words_of time.old) in
        let lent : Lent = lent_to_trees (words_of starts.new) (words_of ends.new) (words_of time.new) in
        OnErr result (IsCutTurn (length out.old) (feed_of s buffer.old waiting false) lent) }
{
    let came = read_behind(input, buffer, waiting)?;
    let count = waiting + came;
    let fed = run_front(head, starts, ends, time, buffer, count, came == 0, out);
    write_front(output, out, fed.written)?;
    keep_rest(buffer, fed.taken, count);
    let after = fed.head;
    Ok(Left {
        head: after,
        waiting: count - fed.taken,
        over: fed.over,
    })
}
