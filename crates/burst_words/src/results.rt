// The result of an event, in the result list of its burst.
ghost use Rattle.std.specs.Prelude.{◌≡◌, ◌+◌, ◌*◌, ◌≤◌, [], ◌∷◌, length};
ghost use Rattle.words.specs.Overwrite.{overwrite};
ghost use Rattle.demand.specs.Bursts.{event_words, result_words};

use c_answers::{number_of, refusal_of};
use store::Answer;

// "two 64-bit words per event".
pub const EVENT_WORDS: usize = 2;

// Writes the two words of the event of a place: "the refusal number or 0, and the new pass number or 0".
pub fn put_result(results: &mut [u64], place: usize, answer: Answer)
    requires { event_words * place + event_words ≤ length results.old }
    ensures { results.new ≡ overwrite results.old (event_words * place) (result_words (answer ∷ [])) }
{
    let first = EVENT_WORDS * place;
    results[first] = refusal_of(answer) as u64;
    results[first + 1] = number_of(answer, 0) as u64;
}
