// What the book says to a call, and what it holds afterwards.
ghost use Rattle.std.specs.Prelude.{◌≡◌, ◌≤◌, ◌<◌, length};
ghost use Rattle.words.specs.Words.{open_end};
ghost use Rattle.store.specs.Head.{pass_limit};
ghost use Rattle.store.specs.Calls.{start, end};
ghost use Rattle.store.specs.Performing.{totals};
ghost use Rattle.store.specs.Refused.{told, number_of};
ghost use Rattle.store.specs.declared.types.Answer.TheVariants.{Refused};
ghost use Rattle.store.specs.Book.{fed_by, book_refusal, book_does, book_done, book_turn};
ghost use Rattle.pass_list.specs.PassList.{book_in};
ghost use Rattle.pass_book.specs.BookCalls.{call_of, asked_call};
ghost use Rattle.pass_book.specs.Turns.{lacked, answer_of, SaysAs, TurnsAs};

use crate::grounds::refusal;
use crate::types::{Call, Turn};
use pass_list::{Asked, ListedPass, PassBook, totals};
use store::{Answer, Refusal};
use words::Value;

// 27 or 28, where the store's answer was one of them: of its answers the book is fed no more.
fn lacking(given: u8) -> Result<(), Refusal>
    ensures { told result ≡ lacked (fed_by given) }
{
    match given {
        27 => Err(Refusal::LacksPages),
        28 => Err(Refusal::LacksRoot),
        _ => Ok(()),
    }
}

// Whether the book takes a call: no ground of its own is met, and the store lacked nothing for it.
fn takes(passes: &[ListedPass], book: PassBook, call: Call, given: u8) -> Result<(), Refusal>
    requires { book.started ≤ length passes.now }
    ensures { told result ≡ (book_turn (book_in passes.now book) (call_of call) (fed_by given)).answer.refusal }
{
    refusal(passes, book, call)?;
    lacking(given)
}

// A count and a weight sum as an answer, with no page opened.
fn totals_answer(total: Value) -> Answer
    ensures { result ≡ totals total 0 }
{
    Answer::Totals {
        count: total.count,
        sum: total.sum,
        pages: 0,
    }
}

// A total as the answer to what was asked.
fn answer_of(asked: Asked, total: Value) -> Answer
    ensures { result ≡ answer_of asked total }
{
    match asked {
        Asked::BatTime(_) => Answer::BatTime {
            total: total.sum,
            pages: 0,
        },
        Asked::Question(_) | Asked::Lookup { .. } => totals_answer(total),
    }
}

// The answer to a call that only reads.
fn totals_of(passes: &[ListedPass], book: PassBook, asked: Asked) -> Answer
    requires { book.started ≤ length passes.now }
    ensures { SaysAs result (book_in passes.now book) (asked_call asked) }
{
    answer_of(asked, totals(passes, book.started, asked))
}

// "the pass is added, open, and its tick becomes the last tick"
fn with_start(
    passes: &mut [ListedPass],
    book: PassBook,
    tick: u32,
    key: u32,
    weight: u32,
) -> PassBook
    requires started_in_bounds { book.started < length passes.old }
    requires started_le_pass_limit { book.started ≤ pass_limit }
    ensures { book_in passes.new result ≡ book_does (book_in passes.old book) (start tick key weight) }
{
    passes[book.started as usize] = ListedPass {
        key,
        weight,
        start: tick,
        end: words::OPEN,
    };
    PassBook {
        last: tick,
        started: book.started + 1,
    }
}

// "the pass gets its end, and that tick becomes the last tick"
fn with_end(passes: &mut [ListedPass], book: PassBook, tick: u32, number: u32) -> PassBook
    requires started_in_bounds { book.started ≤ length passes.old }
    requires number_lt_started { number < book.started }
    requires tick_lt_open_end { tick < open_end }
    ensures { book_in passes.new result ≡ book_does (book_in passes.old book) (end tick number) }
{
    passes[number as usize].end = tick;
    PassBook {
        last: tick,
        started: book.started,
    }
}

// A call that the book does not refuse.
fn does(passes: &mut [ListedPass], book: PassBook, call: Call) -> Turn
    requires started_in_bounds { book.started < length passes.old }
    requires call_value { book_refusal (book_in passes.old book) (call_of call) ≡ 0 }
    ensures { TurnsAs (call_of call) (book_done (book_in passes.old book) (call_of call)) result passes.new }
{
    match call {
        Call::Open => Turn {
            answer: Answer::Opened,
            book: PassBook {
                last: 0,
                started: 0,
            },
        },
        Call::Start { tick, key, weight } => Turn {
            answer: Answer::Started(book.started),
            book: with_start(passes, book, tick, key, weight),
        },
        Call::End { tick, number } => Turn {
            answer: Answer::Ended,
            book: with_end(passes, book, tick, number),
        },
        Call::Ask(asked) => Turn {
            answer: totals_of(passes, book, asked),
            book,
        },
    }
}

// The book's answer to a call that it refuses. It has the numbers once more: what is compared with the store's answers shares no code with them.
fn refused(refusal: Refusal) -> Answer
    ensures { result ≡ Refused (number_of refusal) }
{
    let number = match refusal {
        Refusal::KeyTooHigh => 1,
        Refusal::NoBand => 2,
        Refusal::WeightBeyond => 3,
        Refusal::NoTick => 4,
        Refusal::NoTime => 5,
        Refusal::UnknownCommand => 6,
        Refusal::OperandsMissing => 7,
        Refusal::TooSmall => 8,
        Refusal::HeadMisfits => 20,
        Refusal::BeforeLast => 21,
        Refusal::NotOpen => 22,
        Refusal::AllOpen => 24,
        Refusal::AllStarted => 25,
        Refusal::Spoiled => 26,
        Refusal::LacksPages => 27,
        Refusal::LacksRoot => 28,
        Refusal::NoBurst => 31,
    };
    Answer::Refused(number)
}

// A turn of the book: what it says to a call, and what it holds then. `given` is the number of the refusal that the store gave to it, 0 for none: any number, where a `Refusal`
// would ask more of a caller. The list has room for one pass more.
pub fn book_turn(passes: &mut [ListedPass], book: PassBook, call: Call, given: u8) -> Turn
    requires { book.started < length passes.old }
    ensures { TurnsAs (call_of call) (book_turn (book_in passes.old book) (call_of call) (fed_by given)) result passes.new }
{
    match takes(passes, book, call, given) {
        Ok(()) => does(passes, book, call),
        Err(refusal) => Turn {
            answer: refused(refusal),
            book,
        },
    }
}
