// The events of a burst: each is entered as the stream's start or end is, and two words say what came of it.
ghost use Rattle.std.specs.Prelude.{◌*◌, ◌≤◌, length};
ghost use Rattle.store.specs.Trees.{Lent, Store};
ghost use Rattle.store.specs.Lending.{words_of, lent_to_trees, store_with, SameSlices};
ghost use Rattle.demand.specs.Bursts.{most_events, event_words, event_count, events_of, enter_burst};
ghost use Rattle.burst.specs.BurstReplies.{EventsEntered, BurstAs};

use burst_words::{EVENT_BYTES, burst_refusal, put_result};
use event_commands::run_event;
use store::{Head, Refusal, TreeMemory};

// Whether the burst is refused as a whole, and the head for the next call: refused, the head that was handed in.
#[derive(Clone, Copy)]
pub struct BurstReply {
    pub refused: Result<(), Refusal>,
    pub head: Head,
}

// Enters the events in their order; a refused one does not keep the next from being tried.
fn enter_events(
    head: Head,
    starts: &mut TreeMemory,
    ends: &mut TreeMemory,
    time: &mut TreeMemory,
    bytes: &[u8],
    results: &mut [u64],
) -> Head
    requires bytes_bound { event_count bytes.now ≤ most_events }
    requires bytes_in_bounds { event_words * event_count bytes.now ≤ length results.old }
    ensures same_starts { SameSlices starts.old starts.new }
    ensures same_ends { SameSlices ends.old ends.new }
    ensures same_time { SameSlices time.old time.new }
    ensures entered { let s : Store = store_with head (words_of starts.old) (words_of ends.old) (words_of time.old) in
        let left : Lent = lent_to_trees (words_of starts.new) (words_of ends.new) (words_of time.new) in
        EventsEntered s (events_of bytes.now) result results.old results.new left }
{
    let mut after = head;
    for (place, event) in bytes.chunks_exact(EVENT_BYTES).enumerate() {
        let reply = run_event(&after, starts, ends, time, event[0], &event[1..]);
        after = reply.head;
        put_result(results, place, reply.answer);
    }
    after
}

// Enters a burst. Refused, it changes nothing, writes no result and hands back the head that it got.
pub fn enter_burst(
    head: Head,
    starts: &mut TreeMemory,
    ends: &mut TreeMemory,
    time: &mut TreeMemory,
    bytes: &[u8],
    results: &mut [u64],
) -> BurstReply
    ensures same_starts { SameSlices starts.old starts.new }
    ensures same_ends { SameSlices ends.old ends.new }
    ensures same_time { SameSlices time.old time.new }
    ensures replied { let s : Store = store_with head (words_of starts.old) (words_of ends.old) (words_of time.old) in
        let left : Lent = lent_to_trees (words_of starts.new) (words_of ends.new) (words_of time.new) in
        BurstAs (enter_burst s bytes.now (length results.old)) result results.old results.new left }
{
    let refused = burst_refusal(bytes, results.len());
    if refused.is_err() {
        return BurstReply { refused, head };
    }
    let after = enter_events(head, starts, ends, time, bytes, results);
    BurstReply {
        refused,
        head: after,
    }
}
