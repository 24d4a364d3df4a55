// A group of histories of one shape: twenty on small parts of the memory, on which pages and places for roots run out, and one on the whole.
ghost use Rattle.std.specs.Prelude.{◌≤◌};

use crate::history::history;
use observed::Counts;
use pass_list::ListedPass;
use random_calls::{Keys, PASSES, Pace, Shape, draw};
use store::TreeMemory;

// How many histories on small parts a group has.
const SMALL: u32 = 20;

// The part of the memory that a history is lent, how long it is, and how seldom the store is opened anew.
#[derive(Clone, Copy)]
struct Part {
    words: usize,
    places: usize,
    anew: u32,
    turns: u32,
}

// The part of so many words and places at most. A small part has one to eight pages, not all of them whole, and one to six roots.
fn part_of(random: &mut u64, small: bool, words: usize, places: usize) -> Part
    ensures words_le_words { result.words ≤ words }
    ensures places_le_places { result.places ≤ places }
    ensures le_anew { 1 ≤ result.anew }
{
    if small {
        return Part {
            words: (tree::PAGE_WORDS + draw(random, 2000) as usize).min(words),
            places: (1 + draw(random, 6) as usize).min(places),
            anew: 200,
            turns: 420,
        };
    }
    Part {
        words,
        places,
        anew: 100000,
        turns: 4000,
    }
}

// The shape of a group, by its number.
fn shape_of(number: u32) -> Shape {
    match number {
        0 => Shape {
            keys: Keys::Uniform,
            pace: Pace::Jumps,
        },
        1 => Shape {
            keys: Keys::Bands,
            pace: Pace::Jumps,
        },
        2 => Shape {
            keys: Keys::OneBand,
            pace: Pace::Slow,
        },
        3 => Shape {
            keys: Keys::Rising,
            pace: Pace::Slow,
        },
        4 => Shape {
            keys: Keys::Uniform,
            pace: Pace::Swarms,
        },
        5 => Shape {
            keys: Keys::Bands,
            pace: Pace::Swarms,
        },
        6 => Shape {
            keys: Keys::Uniform,
            pace: Pace::Slow,
        },
        _ => Shape {
            keys: Keys::Uniform,
            pace: Pace::Late,
        },
    }
}

// A history on the first words of each table and the first places of each root list.
fn history_on(
    starts: &mut TreeMemory,
    ends: &mut TreeMemory,
    time: &mut TreeMemory,
    passes: &mut [ListedPass; PASSES],
    random: &mut u64,
    shape: Shape,
    small: bool,
) -> Counts {
    let most = starts
        .table
        .len()
        .min(ends.table.len())
        .min(time.table.len());
    let most_places = starts
        .roots
        .len()
        .min(ends.roots.len())
        .min(time.roots.len());
    let part = part_of(random, small, most, most_places);
    let (start_table, start_roots) = (&mut *starts.table, &mut *starts.roots);
    let (end_table, end_roots) = (&mut *ends.table, &mut *ends.roots);
    let (time_table, time_roots) = (&mut *time.table, &mut *time.roots);
    history(
        &mut TreeMemory {
            table: &mut start_table[..part.words],
            roots: &mut start_roots[..part.places],
        },
        &mut TreeMemory {
            table: &mut end_table[..part.words],
            roots: &mut end_roots[..part.places],
        },
        &mut TreeMemory {
            table: &mut time_table[..part.words],
            roots: &mut time_roots[..part.places],
        },
        passes,
        random,
        shape,
        part.anew,
        part.turns,
    )
}

// A group of histories, by its number.
pub fn group_of(
    starts: &mut TreeMemory,
    ends: &mut TreeMemory,
    time: &mut TreeMemory,
    passes: &mut [ListedPass; PASSES],
    number: u32,
) -> Counts {
    let shape = shape_of(number);
    let mut random = number as u64 + 1;
    let mut counts = Counts::default();
    for run in 0..SMALL + 1 {
        let more = history_on(starts, ends, time, passes, &mut random, shape, run < SMALL);
        counts = counts.plus(more);
    }
    counts
}
