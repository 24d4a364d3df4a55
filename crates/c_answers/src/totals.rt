// The values of a reading call, for C: they go into lent numbers, which stay as they are where the call is refused.
ghost use Rattle.std.specs.Prelude.{ℕ, List, [], ◌∷◌};
ghost use Rattle.c_answers.specs.Said.{Tells};

use crate::said::refusal_of;
use store::Answer;

// Writes an answer's count, sum and pages, and returns its refusal, 0 for none.
pub fn tell(answer: Answer, count: &mut u64, sum: &mut u64, pages: &mut u32) -> u8
    ensures { let before : List ℕ = count.old ∷ (sum.old ∷ (pages.old ∷ [])) in
        let after : List ℕ = count.new ∷ (sum.new ∷ (pages.new ∷ [])) in
        Tells answer result before after }
{
    if let Answer::Totals {
        count: said_count,
        sum: said_sum,
        pages: said_pages,
    } = answer
    {
        *count = said_count;
        *sum = said_sum;
        *pages = said_pages;
    }
    refusal_of(answer)
}

// Writes the total and the pages of an answer about bat-time, and returns its refusal, 0 for none: a function of its own, since C lends two numbers for it and not three.
pub fn tell_time(answer: Answer, total: &mut u64, pages: &mut u32) -> u8
    ensures { let before : List ℕ = total.old ∷ (pages.old ∷ []) in
        let after : List ℕ = total.new ∷ (pages.new ∷ []) in
        Tells answer result before after }
{
    if let Answer::BatTime {
        total: said_total,
        pages: said_pages,
    } = answer
    {
        *total = said_total;
        *pages = said_pages;
    }
    refusal_of(answer)
}
