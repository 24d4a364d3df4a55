// A call made on the store, and all that is seen of it.
use crate::call::make;
use observed::memory_sum;
use outcomes::{Outcome, outcome_of};
use pass_book::Call;
use store::{Head, StoreView, TreeMemory};

// Makes a call on the store.
pub fn made(
    head: Head,
    starts: &mut TreeMemory,
    ends: &mut TreeMemory,
    time: &mut TreeMemory,
    call: Call,
) -> Outcome {
    let before = memory_sum(&StoreView {
        head: &head,
        starts: starts.view(),
        ends: ends.view(),
        time: time.view(),
    });
    let reply = make(head, starts, ends, time, call);
    let store = StoreView {
        head: &head,
        starts: starts.view(),
        ends: ends.view(),
        time: time.view(),
    };
    outcome_of(&store, reply, before, call)
}
