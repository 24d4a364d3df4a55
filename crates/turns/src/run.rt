// A run of the program: turns, until it is over.
ghost use Rattle.std.specs.Prelude.{false, [], IfOk, OnErr};
ghost use Rattle.store.specs.Trees.{Lent, Store};
ghost use Rattle.store.specs.Lending.{words_of, lent_to_trees, store_with, SameSlices};
ghost use Rattle.command.specs.Pieces.{Feed};
ghost use Rattle.turns.specs.Turns.{Served, ServedOn, CutShort};

use crate::turn::{Left, turn};
use std::io;
use std::io::{Read, Write};
use store::{Head, TreeMemory};

// As much as one read brings, and room for the answers to it.
const PIECE: usize = 4096;

const ANSWERS: usize = 2 * PIECE + framing::LONGEST_ANSWER;

// A proved loop has to end, and nothing says that the input does. So the turns are counted, up to a number that no run comes to.
const MOST_TURNS: u64 = u64::MAX;

pub fn serve<R: Read, W: Write>(
    input: &mut R,
    output: &mut W,
    opened: Head,
    starts: &mut TreeMemory,
    ends: &mut TreeMemory,
    time: &mut TreeMemory,
) -> io::Result<Left>
    ensures same_starts { SameSlices starts.old starts.new }
    ensures same_ends { SameSlices ends.old ends.new }
    ensures same_time { SameSlices time.old time.new }
    ensures served { let s : Store = store_with opened (words_of starts.old) (words_of ends.old) (words_of time.old) in
        let before : Feed = record { store = s; waiting = []; over = false } in
        IfOk result
        (λ left.
        let after : Store = store_with left.head (words_of starts.new) (words_of ends.new) (words_of time.new) in
        Served before after left.over) }
    ensures moves { let s : Store = store_with opened (words_of starts.old) (words_of ends.old) (words_of time.old) in
        let before : Feed = record { store = s; waiting = []; over = false } in
        IfOk result
        (λ left.
        let after : Store = store_with left.head (words_of starts.new) (words_of ends.new) (words_of time.new) in
        ServedOn before after left.over (R.remaining input.old) (R.remaining input.new) (W.contents output.old) (W.contents output.new)) }
    ensures cut_short { let s : Store = store_with opened (words_of starts.old) (words_of ends.old) (words_of time.old) in
        let before : Feed = record { store = s; waiting = []; over = false } in
        let lent : Lent = lent_to_trees (words_of starts.new) (words_of ends.new) (words_of time.new) in
        OnErr result (CutShort before lent) }
{
    let mut buffer = [0u8; PIECE];
    let mut out = [0u8; ANSWERS];
    let mut now = Left {
        head: opened,
        waiting: 0,
        over: false,
    };
    for _ in 0..MOST_TURNS {
        let head = now.head;
        now = turn(
            input,
            output,
            head,
            starts,
            ends,
            time,
            &mut buffer,
            now.waiting,
            &mut out,
        )?;
        if now.over {
            return Ok(now);
        }
    }
    Ok(now)
}
