// The question and bat-time, which are made of lookups.
ghost use Rattle.std.specs.Prelude.{◌≡◌};
ghost use Rattle.store.specs.Lending.{store_seen};
ghost use Rattle.store.specs.Calls.{question, bat_time};
ghost use Rattle.store.specs.Performing.{perform};
ghost use Rattle.queries.specs.QueryCalls.{query_call};

use bands::{Band, lookup_band, lookup_band_before, without};
use found_answers::{answer_of, time_of};
use grounds::question_input;
use refusals::reading_refusal;
use roots::skip_later;
use store::{Answer, StoreView};
use tree::{TreePages, TreeUse};

// A question, or bat-time of the same band and interval: they take the same arguments and are refused alike.
pub fn query(store: &StoreView, time: bool, k1: u32, k2: u32, t1: u32, t2: u32) -> Answer
    ensures { result ≡ (perform (store_seen store.now) (query_call time k1 k2 t1 t2)).answer }
{
    if let Err(refusal) = reading_refusal(store, question_input(k1, k2, t1, t2)) {
        return Answer::from(refusal);
    }
    let head = store.head;
    let band = Band { k1, k2 };
    if time {
        // What has gathered before t2, less what had before t1. Both are in one tree: the root list is walked once.
        let lent = store.time;
        let entries = skip_later(lent.roots, head.time.roots as usize, t2 - 1);
        let tree = TreePages {
            table: lent.table,
            used: TreeUse {
                pages: head.time.pages,
                roots: entries as u32,
            },
        };
        let until = lookup_band(tree, lent.roots, t2 - 1, band);
        let before = lookup_band_before(tree, lent.roots, t1, band);
        return time_of(until, t2, before, t1);
    }
    // The passes that started before t2, less those that ended before t1.
    let started = TreePages {
        table: store.starts.table,
        used: head.starts,
    };
    let ended = TreePages {
        table: store.ends.table,
        used: head.ends,
    };
    let starts = lookup_band(started, store.starts.roots, t2 - 1, band);
    let ends = lookup_band_before(ended, store.ends.roots, t1, band);
    answer_of(without(starts, ends))
}

// The passes with a key from k1 up to but not k2 that live, from their start tick to their end tick, at a tick from t1 up to but not t2.
pub fn question(store: &StoreView, k1: u32, k2: u32, t1: u32, t2: u32) -> Answer
    ensures { result ≡ (perform (store_seen store.now) (question k1 k2 t1 t2)).answer }
{
    query(store, false, k1, k2, t1, t2)
}

// Weight times the ticks from t1 up to but not t2 at which a pass with a key from k1 up to but not k2 lives, over all of them.
pub fn bat_time(store: &StoreView, k1: u32, k2: u32, t1: u32, t2: u32) -> Answer
    ensures { result ≡ (perform (store_seen store.now) (bat_time k1 k2 t1 t2)).answer }
{
    query(store, true, k1, k2, t1, t2)
}
