// Commands in a stream of bytes, by their command byte and the bytes that follow it.
ghost use Rattle.std.specs.Prelude.{◌≡◌, ◌+◌, ◌≤◌, length};
ghost use Rattle.command.specs.Stream.{kind_of, operand_bytes, goes_on};
ghost use Rattle.command.specs.Pieces.{command_length, is_unfinished, must_wait};

// No command writes more bytes than a question.
pub const LONGEST_ANSWER: usize = 18;

// How many operand bytes follow a command byte. An unknown command has none: nothing more is read after it.
pub fn operand_count(code: u8) -> usize
    ensures { result ≡ operand_bytes (kind_of code) }
{
    match code {
        1 | 2 => 8,
        3 | 4 => 12,
        _ => 0,
    }
}

// Whether operands of a command are missing.
fn is_unfinished(code: u8, rest: &[u8]) -> bool
    ensures { result ≡ is_unfinished code rest.now }
{
    rest.len() < operand_count(code)
}

// Whether a command waits: an answer might not have room, or operands of it may still come.
pub fn must_wait(code: u8, rest: &[u8], ended: bool, room: usize) -> bool
    ensures { result ≡ must_wait room ended code rest.now }
{
    room < LONGEST_ANSWER || !ended && is_unfinished(code, rest)
}

// How many bytes a command has, as far as it has come: the command byte and its operands.
pub fn command_length(code: u8, rest: &[u8]) -> usize
    ensures value { result ≡ command_length code rest.now }
    ensures upper_bound { result ≤ 1 + length rest.now }
{
    1 + operand_count(code).min(rest.len())
}

// Whether the run goes on after a command: it is known, and all of it has come. "After 6 or 7 nothing more is read."
pub fn goes_on(code: u8, rest: &[u8]) -> bool
    ensures { result ≡ goes_on rest.now (kind_of code) }
{
    operand_count(code) != 0 && !is_unfinished(code, rest)
}
