// Calls of which most are refused: an argument or more is out of its range, too early, or of no open pass.
use crate::asked::{band_call, drawn_tree};
use crate::random::draw;
use pass_book::Call;
use pass_list::{Asked, PassBook, Window};

fn odd_key(random: &mut u64) -> u32 {
    match draw(random, 6) {
        0 => 30000,
        1 => 30001,
        2 => 65536,
        3 => 4294967295,
        4 => 29999,
        _ => 4500,
    }
}

fn odd_weight(random: &mut u64) -> u32 {
    match draw(random, 5) {
        0 => 0,
        1 => 10001,
        2 => 65537,
        3 => 1,
        _ => 10000,
    }
}

fn odd_tick(random: &mut u64, last: u32) -> u32 {
    match draw(random, 5) {
        0 => 0,
        1 => last.wrapping_sub(1),
        2 => 4294967295,
        _ => last,
    }
}

// A question or bat-time.
fn odd_question(random: &mut u64, last: u32) -> Call {
    let window = Window {
        k1: odd_key(random),
        k2: odd_key(random),
        t1: odd_tick(random, last),
        t2: odd_tick(random, last),
    };
    band_call(random, window)
}

pub fn odd_call(random: &mut u64, book: PassBook) -> Call {
    let at = odd_tick(random, book.last);
    let of = odd_key(random);
    match draw(random, 5) {
        0 => Call::Start {
            tick: at,
            key: of,
            weight: odd_weight(random),
        },
        1 => Call::End {
            tick: at,
            number: draw(random, book.started % 1000000 + 1),
        },
        2..=3 => Call::Ask(Asked::Lookup {
            tree: drawn_tree(random),
            t: at,
            k: of,
        }),
        _ => odd_question(random, book.last),
    }
}
