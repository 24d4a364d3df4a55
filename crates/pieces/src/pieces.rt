// A piece of the stream: as many of its commands as have come and as there is room for answers.
ghost use Rattle.std.specs.Prelude.{◌≡◌, length};
ghost use Rattle.store.specs.Trees.{Lent, Store};
ghost use Rattle.store.specs.Lending.{words_of, lent_to_trees, store_with, SameSlices};
ghost use Rattle.command.specs.Pieces.{run_piece};
ghost use Rattle.pieces.specs.Fed.{runs_at, is_over, FedAs};

use answer_codec::put_answer;
use framing::{command_length, goes_on, must_wait};
use interpret::run_command;
use store::{Head, TreeMemory};

// What a piece leaves: the head for the next one, how many bytes were taken and written, and whether the run is over.
#[derive(Clone, Copy)]
pub struct Fed {
    pub head: Head,
    pub taken: usize,
    pub written: usize,
    pub over: bool,
}

// Whether the command at a place of the piece runs now: the run goes on, there is one, and it does not wait.
fn runs_at(on: bool, input: &[u8], at: usize, ended: bool, room: usize) -> bool
    ensures { result ≡ runs_at on room ended input.now at }
{
    if !on {
        return false;
    }
    if input.len() <= at {
        return false;
    }
    let code = input[at];
    let behind = at + 1;
    !must_wait(code, &input[behind..], ended, room)
}

// Whether the run is over at a place where no command runs.
fn is_over(on: bool, at: usize, count: usize, ended: bool) -> bool
    ensures { result ≡ is_over on at count ended }
{
    if !on {
        return true;
    }
    if at < count {
        return false;
    }
    ended
}

// Runs as much of a piece as it may. `ended` says that no byte comes after these: only then is a command that lacks operands cut short.
pub fn run_piece(
    mut head: Head,
    starts: &mut TreeMemory,
    ends: &mut TreeMemory,
    time: &mut TreeMemory,
    input: &[u8],
    ended: bool,
    out: &mut [u8],
) -> Fed
    ensures same_starts { SameSlices starts.old starts.new }
    ensures same_ends { SameSlices ends.old ends.new }
    ensures same_time { SameSlices time.old time.new }
    ensures fed { let s : Store = store_with head (words_of starts.old) (words_of ends.old) (words_of time.old) in
        let left : Lent = lent_to_trees (words_of starts.new) (words_of ends.new) (words_of time.new) in
        FedAs (run_piece (length out.old) ended s input.now) result out.old out.new left }
{
    // A head is 1 KB. So it stays in one place, where a command leaves it for the next one, and the loop has one way out. A command is as long as its kind says: no iterator
    // has their places, so `taken` is moved by hand.
    let mut taken: usize = 0;
    let mut written: usize = 0;
    let mut on = true;
    while runs_at(on, input, taken, ended, out.len() - written) {
        let code = input[taken];
        let behind = taken + 1;
        let rest = &input[behind..];
        let answer = run_command(&mut head, starts, ends, time, code, rest);
        written = put_answer(out, written, answer);
        taken += command_length(code, rest);
        on = goes_on(code, rest);
    }
    Fed {
        head,
        taken,
        written,
        over: is_over(on, taken, input.len(), ended),
    }
}
