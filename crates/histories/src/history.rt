// A history: calls made on a store and put to the book, and their answers compared.
ghost use Rattle.std.specs.Prelude.{◌≤◌, ◌<◌};

use made_calls::made;
use observed::{Counts, Lives, head_agrees, height, same};
use outcomes::Outcome;
use pass_book::{Call, book_turn};
use pass_list::{ListedPass, PassBook};
use random_calls::{PASSES, Shape, next_call};
use store::{Answer, Head, Refusal, TreeMemory};

// Where a history has come to: the head, the book, what was compared and reached, and the next call.
#[derive(Clone, Copy)]
pub struct Run {
    pub head: Head,
    pub book: PassBook,
    pub counts: Counts,
    pub lives: Lives,
    pub call: Call,
}

// A book with a place for one pass more. A full one is opened anew: then the call is an opening.
fn with_room(book: PassBook) -> PassBook
    ensures { result.started < 2000 }
{
    if (book.started as usize) < PASSES {
        return book;
    }
    PassBook {
        last: 0,
        started: 0,
    }
}

// The book's answer with the pages opened, which are the store's to say.
fn with_pages(answer: Answer, opened: u32) -> Answer {
    match answer {
        Answer::Totals { count, sum, .. } => Answer::Totals {
            count,
            sum,
            pages: opened,
        },
        Answer::BatTime { total, .. } => Answer::BatTime {
            total,
            pages: opened,
        },
        _ => answer,
    }
}

// Whether an answer is one after which the lent words are as before: a refusal, totals or bat-time.
fn leaves_words(answer: Answer) -> bool {
    matches!(
        answer,
        Answer::Refused(_) | Answer::Totals { .. } | Answer::BatTime { .. }
    )
}

// Whether the words were left as they were, where they should be.
fn words_kept(answer: Answer, unchanged: bool) -> bool {
    !leaves_words(answer) || unchanged
}

// What was compared before, and now the answers, the head with the list, and the words with those before.
fn judged(counts: Counts, outcome: Outcome, said: Answer, agrees: bool) -> Counts {
    let found = outcome.answer;
    let called = counts.called(found, outcome.hints.for_time);
    let answered = called.judged(same(found, said));
    answered
        .judged(agrees)
        .judged(words_kept(said, outcome.unchanged))
}

// The number that the book is told, 0 for none. It is written out here: what is compared with the store shares no code with it.
fn lacking_number(lacking: Option<Refusal>) -> u8 {
    match lacking {
        Some(Refusal::LacksPages) => 27,
        Some(Refusal::LacksRoot) => 28,
        _ => 0,
    }
}

// A call that was made on the store is put to the book. Then the next one is drawn.
fn put_to_book(
    run: Run,
    outcome: Outcome,
    passes: &mut [ListedPass; PASSES],
    random: &mut u64,
    shape: Shape,
    anew: u32,
) -> Run
    requires { 1 ≤ anew }
{
    let hints = outcome.hints;
    let call = run.call;
    let turn = book_turn(
        passes,
        with_room(run.book),
        call,
        lacking_number(hints.lacking),
    );
    let book = turn.book;
    let answer = turn.answer;
    let said = with_pages(answer, hints.pages);
    let head = outcome.head;
    let agrees = head_agrees(head, passes, book);
    let lives = run.lives.after(call, answer, run.book, book, passes);
    Run {
        head,
        book,
        counts: judged(run.counts, outcome, said, agrees),
        lives,
        call: next_call(random, shape, anew, passes, book),
    }
}

// One turn: the next call is made on the store and put to the book.
fn turn(
    run: Run,
    starts: &mut TreeMemory,
    ends: &mut TreeMemory,
    time: &mut TreeMemory,
    passes: &mut [ListedPass; PASSES],
    random: &mut u64,
    shape: Shape,
    anew: u32,
) -> Run
    requires { 1 ≤ anew }
{
    let outcome = made(run.head, starts, ends, time, run.call);
    put_to_book(run, outcome, passes, random, shape, anew)
}

// So many turns. The first opens the store, over memory that may hold anything, and once in `anew` turns it is opened anew.
pub fn history(
    starts: &mut TreeMemory,
    ends: &mut TreeMemory,
    time: &mut TreeMemory,
    passes: &mut [ListedPass; PASSES],
    random: &mut u64,
    shape: Shape,
    anew: u32,
    turns: u32,
) -> Counts
    requires { 1 ≤ anew }
{
    let mut run = Run {
        head: open_passes::opened_head(),
        book: PassBook {
            last: 0,
            started: 0,
        },
        counts: Counts::default(),
        lives: Lives::default(),
        call: Call::Open,
    };
    for _ in 0..turns {
        run = turn(run, starts, ends, time, passes, random, shape, anew);
    }
    let highest = height(starts.view(), run.head.starts.roots)
        .max(height(ends.view(), run.head.ends.roots))
        .max(height(time.view(), run.head.time.roots));
    run.counts.ended(highest, run.lives)
}
