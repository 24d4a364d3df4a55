// "the first refusal of these papers, in their order, 20 and 26 to 28 left out, that its arguments and the book meet". The crate
// grounds tests a call's arguments for the store; the book is what the store's answers are compared with, so it has tests of its own.
ghost use Rattle.std.specs.Prelude.{◌≡◌, ◌≤◌, length, [], ◌∷◌};
ghost use Rattle.store.specs.Refusals.{first_met};
ghost use Rattle.store.specs.Refused.{told};
ghost use Rattle.store.specs.Calls.{start, end, question};
ghost use Rattle.store.specs.Grounds.{key_too_high, no_tick, argument_grounds};
ghost use Rattle.store.specs.Book.{Book, book_refusal};
ghost use Rattle.pass_list.specs.PassList.{book_in};
ghost use Rattle.pass_book.specs.BookCalls.{call_of, asked_call};

use crate::types::Call;
use pass_list::{Asked, ListedPass, PassBook, Window, open_count};
use store::{Head, OpenPass, Refusal};

#[tactic(auto, unfolding(store::specs::Refusals::first_met, store::specs::Book::book_refusal))]
fn start_refusal(
    passes: &[ListedPass],
    book: PassBook,
    tick: u32,
    key: u32,
    weight: u32,
) -> Result<(), Refusal>
    requires { book.started ≤ length passes.now }
    ensures { told result ≡ book_refusal (book_in passes.now book) (start tick key weight) }
{
    if OpenPass::KEY_LIMIT <= key {
        return Err(Refusal::KeyTooHigh);
    }
    if weight == 0 || OpenPass::HEAVIEST < weight {
        return Err(Refusal::WeightBeyond);
    }
    if tick == words::OPEN {
        return Err(Refusal::NoTick);
    }
    if tick < book.last {
        return Err(Refusal::BeforeLast);
    }
    let open = open_count(passes, book.started);
    if Head::OPEN_LIMIT <= open {
        return Err(Refusal::AllOpen);
    }
    if Head::PASS_LIMIT <= book.started {
        return Err(Refusal::AllStarted);
    }
    Ok(())
}

#[tactic(auto, unfolding(store::specs::Refusals::first_met, store::specs::Book::book_refusal))]
fn end_refusal(passes: &[ListedPass], book: PassBook, tick: u32, number: u32) -> Result<(), Refusal>
    requires { book.started ≤ length passes.now }
    ensures { told result ≡ book_refusal (book_in passes.now book) (end tick number) }
{
    if tick == words::OPEN {
        return Err(Refusal::NoTick);
    }
    if tick < book.last {
        return Err(Refusal::BeforeLast);
    }
    if book.started <= number || !passes[number as usize].is_open() {
        return Err(Refusal::NotOpen);
    }
    Ok(())
}

#[tactic(auto, unfolding(store::specs::Refusals::first_met))]
fn question_refusal(window: Window) -> Result<(), Refusal>
    ensures { told result ≡ first_met (argument_grounds (question window.k1 window.k2 window.t1 window.t2)) }
{
    if OpenPass::KEY_LIMIT <= window.k1 || OpenPass::KEY_LIMIT < window.k2 {
        return Err(Refusal::KeyTooHigh);
    }
    if window.k2 <= window.k1 {
        return Err(Refusal::NoBand);
    }
    if window.t2 <= window.t1 {
        return Err(Refusal::NoTime);
    }
    Ok(())
}

#[tactic(auto, unfolding(store::specs::Refusals::first_met))]
fn lookup_refusal(t: u32, k: u32) -> Result<(), Refusal>
    ensures { told result ≡ first_met (key_too_high k ∷ (no_tick t ∷ [])) }
{
    if OpenPass::KEY_LIMIT <= k {
        return Err(Refusal::KeyTooHigh);
    }
    if t == words::OPEN {
        return Err(Refusal::NoTick);
    }
    Ok(())
}

#[tactic(auto, unfolding(store::specs::Book::book_refusal))]
fn asked_refusal(asked: Asked) -> Result<(), Refusal>
    ensures { (b : Book) → told result ≡ book_refusal b (asked_call asked) }
{
    match asked {
        Asked::Question(window) | Asked::BatTime(window) => question_refusal(window),
        Asked::Lookup { t, k, .. } => lookup_refusal(t, k),
    }
}

#[tactic(auto, unfolding(store::specs::Refusals::first_met, store::specs::Book::book_refusal))]
pub fn refusal(passes: &[ListedPass], book: PassBook, call: Call) -> Result<(), Refusal>
    requires { book.started ≤ length passes.now }
    ensures { told result ≡ book_refusal (book_in passes.now book) (call_of call) }
{
    match call {
        Call::Open => Ok(()),
        Call::Start { tick, key, weight } => start_refusal(passes, book, tick, key, weight),
        Call::End { tick, number } => end_refusal(passes, book, tick, number),
        Call::Ask(asked) => asked_refusal(asked),
    }
}
