// Random histories: the next call, by the history's shape and what the list holds.
ghost use Rattle.std.specs.Prelude.{◌<◌, ◌≤◌};

use crate::asked::{band_call, drawn_tree};
use crate::list::{PASSES, open_number};
use crate::random::{draw, one_in};
use crate::refused_calls::odd_call;
use crate::shape::{Shape, key, tick};
use pass_book::Call;
use pass_list::{Asked, ListedPass, PassBook, Window, open_count};

fn start_call(random: &mut u64, shape: Shape, book: PassBook) -> Call {
    let keys = shape.keys;
    let pace = shape.pace;
    let at = tick(random, pace, book.last);
    let of = key(random, keys, book.started);
    Call::Start {
        tick: at,
        key: of,
        weight: 1 + draw(random, 10000),
    }
}

// An open pass ends, most often one of the oldest.
fn old_end(random: &mut u64, shape: Shape, passes: &[ListedPass; PASSES], book: PassBook) -> Call
    requires { book.started ≤ 2000 }
{
    let pace = shape.pace;
    let at = tick(random, pace, book.last);
    let most = 1 + draw(random, 40);
    let before = draw(random, most);
    let open = open_count(passes, book.started);
    Call::End {
        tick: at,
        number: open_number(passes, book.started, before % (1 + open % 65)),
    }
}

// The newest open pass ends at the last tick. Most likely it started there, and is a click.
fn click_end(passes: &[ListedPass; PASSES], book: PassBook) -> Call
    requires { book.started ≤ 2000 }
{
    let open = open_count(passes, book.started);
    Call::End {
        tick: book.last,
        number: open_number(passes, book.started, open.wrapping_sub(1)),
    }
}

fn end_call(random: &mut u64, shape: Shape, passes: &[ListedPass; PASSES], book: PassBook) -> Call
    requires { book.started ≤ 2000 }
{
    if one_in(random, 4) {
        return click_end(passes, book);
    }
    old_end(random, shape, passes, book)
}

// A key to ask for.
fn asked_key(random: &mut u64, shape: Shape, book: PassBook) -> u32
    ensures { result < 30000 }
{
    let keys = shape.keys;
    let number = draw(random, 1 + book.started % 10000);
    match draw(random, 8) {
        0 => 0,
        1 => 29999,
        2..=3 => draw(random, 30000),
        4 => 1,
        _ => key(random, keys, number),
    }
}

// A tick to ask for: past, present or later.
fn asked_tick(random: &mut u64, last: u32) -> u32 {
    match draw(random, 8) {
        0 => 0,
        1 => 4294967295 - draw(random, 3),
        2 => last,
        3 => last.wrapping_add(draw(random, 100)),
        4 => last.wrapping_sub(draw(random, 100)),
        _ => draw(random, last % 4294967295 + 1),
    }
}

// The first tick of a question: the one that was drawn, or the end tick of a pass, at which it is still counted, or the tick after it, from which on
// it is not.
fn first_tick(random: &mut u64, passes: &[ListedPass; PASSES], book: PassBook, tick: u32) -> u32
    requires { book.started ≤ 2000 }
{
    let number = draw(random, 1 + book.started % 2000);
    match draw(random, 4) {
        0 => passes[number as usize].end,
        1 => passes[number as usize].end.wrapping_add(1),
        _ => tick,
    }
}

// A question or bat-time.
fn question_call(
    random: &mut u64,
    shape: Shape,
    passes: &[ListedPass; PASSES],
    book: PassBook,
) -> Call
    requires { book.started ≤ 2000 }
{
    let one_key = asked_key(random, shape, book);
    let other_key = asked_key(random, shape, book);
    let one_tick = asked_tick(random, book.last);
    let other_tick = asked_tick(random, book.last);
    let first = first_tick(random, passes, book, one_tick.min(other_tick));
    let window = Window {
        k1: one_key.min(other_key),
        k2: one_key.max(other_key).wrapping_add(1),
        t1: first,
        t2: one_tick.max(other_tick).max(first).wrapping_add(1),
    };
    band_call(random, window)
}

fn lookup_call(random: &mut u64, shape: Shape, book: PassBook) -> Call {
    let t = asked_tick(random, book.last);
    let k = asked_key(random, shape, book);
    let tree = drawn_tree(random);
    Call::Ask(Asked::Lookup { tree, t, k })
}

// The next call. Once in `anew` times, and where the list has no room for another pass, it is an opening anew; now and then it is one to be
// refused.
pub fn next_call(
    random: &mut u64,
    shape: Shape,
    anew: u32,
    passes: &[ListedPass; PASSES],
    book: PassBook,
) -> Call
    requires { 1 ≤ anew }
{
    if PASSES <= book.started as usize || one_in(random, anew) {
        return Call::Open;
    }
    match draw(random, 100) {
        0..=3 => odd_call(random, book),
        4..=44 => start_call(random, shape, book),
        45..=82 => end_call(random, shape, passes, book),
        83..=90 => lookup_call(random, shape, book),
        _ => question_call(random, shape, passes, book),
    }
}
