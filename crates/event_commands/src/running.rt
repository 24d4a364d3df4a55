// A start or an end: its operands taken from bytes, and a call of the store.
ghost use Rattle.store.specs.Trees.{Lent, Store};
ghost use Rattle.store.specs.Lending.{words_of, lent_to_trees, store_with, SameSlices};
ghost use Rattle.replies.specs.Replies.{RepliedAs};
ghost use Rattle.command.specs.Stream.{event_kind, answered};

use events::{Event, read_event};
use replies::Reply;
use store::{Head, TreeMemory};

// Runs a start or an end. It is a function of its own so that what a query is handed takes no stack while points are entered.
pub fn run_event(
    head: &Head,
    starts: &mut TreeMemory,
    ends: &mut TreeMemory,
    time: &mut TreeMemory,
    code: u8,
    operands: &[u8],
) -> Reply
    ensures same_starts { SameSlices starts.old starts.new }
    ensures same_ends { SameSlices ends.old ends.new }
    ensures same_time { SameSlices time.old time.new }
    ensures replied { let s : Store = store_with head.now (words_of starts.old) (words_of ends.old) (words_of time.old) in
        let left : Lent = lent_to_trees (words_of starts.new) (words_of ends.new) (words_of time.new) in
        RepliedAs (answered s operands.now (event_kind code)) result left }
{
    match read_event(code, operands) {
        Ok(Event::Start { tick, key, weight }) => {
            updates::start(head, starts, ends.view(), time, tick, key, weight)
        }
        Ok(Event::End { tick, number }) => updates::end(
            head,
            starts.view(),
            ends,
            time,
            tick,
            number,
        ),
        Err(refusal) => Reply::refused(refusal.number(), *head),
    }
}
