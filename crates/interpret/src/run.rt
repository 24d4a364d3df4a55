// One command: its operands taken from bytes, and a call of the store.
ghost use Rattle.std.specs.Prelude.{◌≡◌};
ghost use Rattle.store.specs.Trees.{Lent, Store};
ghost use Rattle.store.specs.Lending.{words_of, lent_to_trees, store_with, store_seen, SameSlices};
ghost use Rattle.replies.specs.Replies.{RepliedAs};
ghost use Rattle.command.specs.Stream.{is_query, query_kind, kind_of, answered};

use codec::{number2, number4};
use event_commands::run_event;
use store::{Answer, Head, Refusal, StoreView, TreeMemory};

// The command bytes of the queries, which only read the store.
pub const QUESTION: u8 = 3;

pub const BAT_TIME: u8 = 4;

// Whether a command is a query.
pub fn is_query(code: u8) -> bool
    ensures { result ≡ is_query code }
{
    code == QUESTION || code == BAT_TIME
}

// "k1 2, k2 2, t1 4, t2 4", of a question and of bat-time. The head stays, and every lent word: the answer is all that is handed back.
pub fn answer_query(store: &StoreView, code: u8, operands: &[u8]) -> Answer
    ensures { result ≡ (answered (store_seen store.now) operands.now (query_kind code)).answer }
{
    if operands.len() < 12 {
        return Answer::from(Refusal::OperandsMissing);
    }
    queries::query(
        store,
        code == BAT_TIME,
        number2(operands, 0),
        number2(operands, 2),
        number4(operands, 4),
        number4(operands, 8),
    )
}

// Runs a command, from its command byte and the bytes that follow it. The head stands in its place: a query leaves it, and handed over and back it
// would be copied for each.
pub fn run_command(
    head: &mut Head,
    starts: &mut TreeMemory,
    ends: &mut TreeMemory,
    time: &mut TreeMemory,
    code: u8,
    operands: &[u8],
) -> Answer
    ensures same_starts { SameSlices starts.old starts.new }
    ensures same_ends { SameSlices ends.old ends.new }
    ensures same_time { SameSlices time.old time.new }
    ensures replied { let s : Store = store_with head.old (words_of starts.old) (words_of ends.old) (words_of time.old) in
        let left : Lent = lent_to_trees (words_of starts.new) (words_of ends.new) (words_of time.new) in
        RepliedAs (answered s operands.now (kind_of code)) (record { answer = result; head = head.new }) left }
{
    if is_query(code) {
        let store = StoreView {
            head: &*head,
            starts: starts.view(),
            ends: ends.view(),
            time: time.view(),
        };
        return answer_query(&store, code, operands);
    }
    let reply = run_event(&*head, starts, ends, time, code, operands);
    *head = reply.head;
    reply.answer
}
