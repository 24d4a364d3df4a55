// An answer's refusal and its pass number, for C.
ghost use Rattle.std.specs.Prelude.{◌≡◌};
ghost use Rattle.store.specs.Answers.{refusal_of, values_of};
ghost use Rattle.c_answers.specs.Said.{number_said};

use store::Answer;

// An answer's refusal, 0 for none: C is given a number.
pub fn refusal_of(answer: Answer) -> u8
    ensures { result ≡ refusal_of answer }
{
    match answer {
        Answer::Refused(number) => number,
        _ => 0,
    }
}

// The pass number that an answer says, or the old one where it says none.
pub fn number_of(answer: Answer, old: u32) -> u32
    ensures { result ≡ number_said old (values_of answer) }
{
    match answer {
        Answer::Started(number) => number,
        _ => old,
    }
}
