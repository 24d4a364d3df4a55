// The command program: commands from standard input, what they say to standard output, over a store of its own.
#![tactic(auto)]

ghost use Rattle.std.specs.Prelude.{◌≡◌, true, IfOk, OnErr};
ghost use Rattle.store.specs.Trees.{Lent, lent_of, Store, store_of};
ghost use Rattle.store.specs.Lending.{words_of, lent_to_trees, store_with, SameSlices};
ghost use Rattle.command.specs.Stream.{program_tree};
ghost use Rattle.command.specs.Pieces.{program_feed};
ghost use Rattle.turns.specs.Turns.{Served, CutShort};
ghost use Rattle.detector.specs.Program.{Says};

use std::io;
use std::io::{Read, Write};
use store::TreeMemory;
use turns::{Left, serve};

// "the program's tables shrink to 10 pages and 10 roots a tree" (document 02, Paper 4): arrays of 2,600 words and of 10.
const PAGES: usize = 10;

const ROOTS: usize = 10;

const TABLE_WORDS: usize = PAGES * tree::PAGE_WORDS;

// Opens the store in the memory of three trees and runs the input on it.
fn open_and_serve<R: Read, W: Write>(
    input: &mut R,
    output: &mut W,
    starts: &mut TreeMemory,
    ends: &mut TreeMemory,
    time: &mut TreeMemory,
) -> io::Result<Left>
    requires starts_value { words_of starts.old ≡ program_tree }
    requires ends_value { words_of ends.old ≡ program_tree }
    requires time_value { words_of time.old ≡ program_tree }
    ensures same_starts { SameSlices starts.old starts.new }
    ensures same_ends { SameSlices ends.old ends.new }
    ensures same_time { SameSlices time.old time.new }
    ensures served { IfOk result
        (λ left.
        let after : Store = store_with left.head (words_of starts.new) (words_of ends.new) (words_of time.new) in
        Served program_feed after left.over) }
    ensures says_output { IfOk result (λ left. left.over ≡ true → Says (R.remaining input.old) (R.remaining input.new) (W.contents output.old) (W.contents output.new)) }
    ensures cut_short { let lent : Lent = lent_to_trees (words_of starts.new) (words_of ends.new) (words_of time.new) in
        OnErr result (CutShort program_feed lent) }
{
    let reply = opening::open(open_passes::opened_head(), starts, ends, time);
    let opened = reply.head;
    serve(input, output, opened, starts, ends, time)
}

// Opens the store in the program's tables and runs the input on it.
fn run_program<R: Read, W: Write>(
    input: &mut R,
    output: &mut W,
    start_table: &mut [u64; TABLE_WORDS],
    start_roots: &mut [u64; ROOTS],
    end_table: &mut [u64; TABLE_WORDS],
    end_roots: &mut [u64; ROOTS],
    time_table: &mut [u64; TABLE_WORDS],
    time_roots: &mut [u64; ROOTS],
) -> io::Result<Left>
    requires start_table_value { start_table.old ≡ program_tree.table }
    requires start_roots_value { start_roots.old ≡ program_tree.roots }
    requires end_table_value { end_table.old ≡ program_tree.table }
    requires end_roots_value { end_roots.old ≡ program_tree.roots }
    requires time_table_value { time_table.old ≡ program_tree.table }
    requires time_roots_value { time_roots.old ≡ program_tree.roots }
    ensures served { IfOk result
        (λ left.
        let after : Store = store_of left.head start_table.new start_roots.new end_table.new end_roots.new time_table.new time_roots.new in
        Served program_feed after left.over) }
    ensures says_output { IfOk result (λ left. left.over ≡ true → Says (R.remaining input.old) (R.remaining input.new) (W.contents output.old) (W.contents output.new)) }
    ensures cut_short { let lent : Lent = lent_of start_table.new start_roots.new end_table.new end_roots.new time_table.new time_roots.new in
        OnErr result (CutShort program_feed lent) }
{
    open_and_serve(
        input,
        output,
        &mut TreeMemory {
            table: start_table,
            roots: start_roots,
        },
        &mut TreeMemory {
            table: end_table,
            roots: end_roots,
        },
        &mut TreeMemory {
            table: time_table,
            roots: time_roots,
        },
    )
}

fn main(rt: HostRuntime) -> io::Result<()> {
    let mut start_table = [0u64; TABLE_WORDS];
    let mut start_roots = [0u64; ROOTS];
    let mut end_table = [0u64; TABLE_WORDS];
    let mut end_roots = [0u64; ROOTS];
    let mut time_table = [0u64; TABLE_WORDS];
    let mut time_roots = [0u64; ROOTS];
    run_program(
        &mut rt.stdin(),
        &mut rt.stdout(),
        &mut start_table,
        &mut start_roots,
        &mut end_table,
        &mut end_roots,
        &mut time_table,
        &mut time_roots,
    )?;
    Ok(())
}
