// What is answered by what lookups found.
ghost use Rattle.std.specs.Prelude.{◌≡◌, ◌-◌, ◌≤◌};
ghost use Rattle.store.specs.Reading.{pages_of};
ghost use Rattle.found_answers.specs.FoundAnswers.{answer_of, time_of};

use store::Answer;
use tree::{Lookup, SpoiledPage};

// A lookup's totals, or 26 where it met a spoiled page.
pub fn answer_of(found: Result<Lookup, SpoiledPage>) -> Answer
    ensures { result ≡ answer_of found }
{
    let Ok(found) = found else {
        return Answer::Refused(26);
    };
    Answer::Totals {
        count: found.value.count,
        sum: found.value.sum,
        pages: found.pages,
    }
}

// Weight times ticks: the line that was found before t2, less the one before t1, each at its own tick. 26 where a lookup met a spoiled page.
pub fn time_of(
    until: Result<Lookup, SpoiledPage>,
    t2: u32,
    before: Result<Lookup, SpoiledPage>,
    t1: u32,
) -> Answer
    requires until_bound { pages_of until ≤ 8 }
    requires before_bound { pages_of before ≤ 8 }
    ensures { result ≡ time_of until t2 before t1 }
{
    let (Ok(later), Ok(earlier)) = (until, before) else {
        return Answer::Refused(26);
    };
    // No tick precedes tick 0: its line is taken at tick 0 itself.
    let until_line = later.value.at(t2.saturating_sub(1));
    let before_line = earlier.value.at(t1.saturating_sub(1));
    Answer::BatTime {
        total: until_line.wrapping_sub(before_line),
        pages: later.pages + earlier.pages,
    }
}
