// A call of the book made on the store.
use pass_book::Call;
use pass_list::{Asked, Window};
use replies::Reply;
use store::{Answer, Head, StoreView, TreeMemory};
use tree_lookups::lookup_in;

// Asks the store what only reads it.
fn ask(store: &StoreView, asked: Asked) -> Answer {
    match asked {
        Asked::Question(Window { k1, k2, t1, t2 }) => queries::question(store, k1, k2, t1, t2),
        Asked::BatTime(Window { k1, k2, t1, t2 }) => queries::bat_time(store, k1, k2, t1, t2),
        Asked::Lookup { tree, t, k } => lookup_in(store, tree, t, k),
    }
}

// Makes a call on the store. One that only reads hands the head back as it is.
pub fn make(
    head: Head,
    starts: &mut TreeMemory,
    ends: &mut TreeMemory,
    time: &mut TreeMemory,
    call: Call,
) -> Reply {
    match call {
        Call::Open => opening::open(head, starts, ends, time),
        Call::Start { tick, key, weight } => {
            updates::start(&head, starts, ends.view(), time, tick, key, weight)
        }
        Call::End { tick, number } => updates::end(&head, starts.view(), ends, time, tick, number),
        Call::Ask(asked) => {
            let store = StoreView {
                head: &head,
                starts: starts.view(),
                ends: ends.view(),
                time: time.view(),
            };
            Reply {
                answer: ask(&store, asked),
                head,
            }
        }
    }
}
