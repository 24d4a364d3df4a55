// A start or an end, taken from its bytes.
ghost use Rattle.std.specs.Prelude.{◌≡◌};
ghost use Rattle.store.specs.Trees.{Store};
ghost use Rattle.command.specs.Stream.{command, start_command, end_command, event_kind, answered};
ghost use Rattle.events.specs.Events.{answer_of};

use codec::{number2, number4};
use store::Refusal;

// What the bytes of an event ask for.
#[derive(Clone, Copy)]
pub enum Event {
    Start { tick: u32, key: u32, weight: u32 },
    End { tick: u32, number: u32 },
}

// "01h start: tick 4 bytes, key 2, weight 2."
fn read_start(operands: &[u8]) -> Result<Event, Refusal>
    ensures { (s : Store) → answer_of s result ≡ answered s operands.now (command 8 start_command) }
{
    if operands.len() < 8 {
        return Err(Refusal::OperandsMissing);
    }
    Ok(Event::Start {
        tick: number4(operands, 0),
        key: number2(operands, 4),
        weight: number2(operands, 6),
    })
}

// "02h end: tick 4, pass number 4."
fn read_end(operands: &[u8]) -> Result<Event, Refusal>
    ensures { (s : Store) → answer_of s result ≡ answered s operands.now (command 8 end_command) }
{
    if operands.len() < 8 {
        return Err(Refusal::OperandsMissing);
    }
    Ok(Event::End {
        tick: number4(operands, 0),
        number: number4(operands, 4),
    })
}

// Takes an event from its command byte and the bytes that follow it, or says why it is refused: its kind is unknown, or operands lack. It is handed no
// store and hands none back, so that nobody pays for a copy of one.
pub fn read_event(code: u8, operands: &[u8]) -> Result<Event, Refusal>
    ensures { (s : Store) → answer_of s result ≡ answered s operands.now (event_kind code) }
{
    match code {
        1 => read_start(operands),
        2 => read_end(operands),
        _ => Err(Refusal::UnknownCommand),
    }
}
