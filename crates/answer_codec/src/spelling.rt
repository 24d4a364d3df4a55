// Answers as the bytes that a command writes.
ghost use Rattle.std.specs.Prelude.{◌≡◌, ◌+◌, ◌≤◌, length, replicate};
ghost use Rattle.words.specs.Overwrite.{overwrite};
ghost use Rattle.store.specs.declared.types.Answer.TheVariants as said;
ghost use Rattle.command.specs.Stream.{written, longest_answer};

use codec::{put_bytes, put_number};
use framing::LONGEST_ANSWER;
use store::Answer;

// "00h, pass number 4".
fn put_started(out: &mut [u8; LONGEST_ANSWER], number: u32)
    ensures { out.new ≡ overwrite out.old 0 (written (said.Started number)) }
{
    put_number(out, 0, 1, 0);
    put_number(out, 1, 4, number as u64);
}

// "00h, count 8, sum 8, pages opened 1".
fn put_totals(out: &mut [u8; LONGEST_ANSWER], count: u64, sum: u64, pages: u32)
    ensures { out.new ≡ overwrite out.old 0 (written (said.Totals count sum pages)) }
{
    put_number(out, 0, 1, 0);
    put_number(out, 1, 8, count);
    put_number(out, 9, 8, sum);
    put_number(out, 17, 1, pages as u64);
}

// 04h writes "00h, total 8, pages 1".
fn put_bat_time(out: &mut [u8; LONGEST_ANSWER], total: u64, pages: u32)
    ensures { out.new ≡ overwrite out.old 0 (written (said.BatTime total pages)) }
{
    put_number(out, 0, 1, 0);
    put_number(out, 1, 8, total);
    put_number(out, 9, 1, pages as u64);
}

// How many bytes an answer has. "A refusal writes its number as one byte."
fn answer_length(answer: Answer) -> usize
    ensures { result ≡ length (written answer) }
{
    match answer {
        Answer::Started(_) => 5,
        Answer::Totals { .. } => LONGEST_ANSWER,
        Answer::BatTime { .. } => 10,
        _ => 1,
    }
}

// An answer's bytes at the front of zeros, for a place that is as long as the longest answer.
pub fn answer_bytes(answer: Answer) -> [u8; LONGEST_ANSWER]
    ensures { result ≡ overwrite (replicate longest_answer 0) 0 (written answer) }
{
    let mut bytes = [0u8; LONGEST_ANSWER];
    match answer {
        Answer::Refused(number) => bytes[0] = number,
        Answer::Started(number) => put_started(&mut bytes, number),
        Answer::Totals { count, sum, pages } => put_totals(&mut bytes, count, sum, pages),
        Answer::BatTime { total, pages } => put_bat_time(&mut bytes, total, pages),
        Answer::Opened | Answer::Ended => {}
    }
    bytes
}

// Writes an answer into `out` from a place on and returns the place behind it. What is asked of `out` stays a clause: it is a stream's, of any length.
pub fn put_answer(out: &mut [u8], from: usize, answer: Answer) -> usize
    requires { from + longest_answer ≤ length out.old }
    ensures out_after { out.new ≡ overwrite out.old from (written answer) }
    ensures value { result ≡ from + length (written answer) }
{
    let bytes = answer_bytes(answer);
    let count = answer_length(answer);
    put_bytes(out, from, &bytes[..count]);
    from + count
}
