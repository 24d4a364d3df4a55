// The calls that enter points: a start into the trees of starts and of time, an end into those of ends and of time. Nothing is written before every refusal of both
// trees is ruled out, and then nothing can go wrong.
ghost use Rattle.std.specs.Prelude.{◌≡◌};
ghost use Rattle.store.specs.Trees.{LentTree, Store};
ghost use Rattle.store.specs.Lending.{words_of, words_in, nothing_lent, lent_to_trees, store_with, SameSlices};
ghost use Rattle.store.specs.Calls.{start, end};
ghost use Rattle.store.specs.Head.{found_at};
ghost use Rattle.store.specs.Writing.{point_of};
ghost use Rattle.store.specs.Performing.{served, perform};
ghost use Rattle.replies.specs.Replies.{RepliedAs};
ghost use Rattle.updates.specs.Accepted.{StartAccepted, EndAccepted, ended_as};

use enter::enter;
use open_passes::{ended_head, find_pass, started_head};
use refusals::{end_refusal, start_refusal};
use replies::Reply;
use store::{Answer, Head, OpenPass, Refusal, StoreView, TreeMemory, TreeView};
use time_points::{time_at_end, time_at_start};
use words::Value;

// What a pass of a weight adds to a tree: a count of 1, and the weight.
fn one_pass(weight: u32) -> Value
    ensures { result ≡ (point_of 0 0 weight).value }
{
    Value {
        count: 1,
        sum: weight as u64,
    }
}

// An accepted start: a point in each of two trees, and one more open pass. It is a function of its own, as is an accepted end: the copies of the head that the refusals are
// tested on take no stack then while a point is entered.
fn start_pass(
    head: Head,
    starts: &mut TreeMemory,
    time: &mut TreeMemory,
    tick: u32,
    key: u32,
    weight: u32,
) -> Reply
    requires { StartAccepted (store_with head (words_of starts.old) nothing_lent (words_of time.old)) tick key weight }
    ensures same_starts { SameSlices starts.old starts.new }
    ensures same_time { SameSlices time.old time.new }
    ensures replied { (ends : LentTree) → RepliedAs (served (store_with head (words_of starts.old) ends (words_of time.old)) (start tick key weight)) result
        (lent_to_trees (words_of starts.new) ends (words_of time.new)) }
{
    let value = one_pass(weight);
    let starts_after = enter(
        starts.table,
        starts.roots,
        head.starts,
        tick,
        key as u16,
        value,
    );
    let line = time_at_start(tick, weight);
    let time_after = enter(time.table, time.roots, head.time, tick, key as u16, line);
    Reply {
        answer: Answer::Started(head.started),
        head: started_head(head, starts_after, time_after, tick, key, weight),
    }
}

// A pass starts. The answer is its number. The head is lent: handed over, it would be copied for the view that the refusals look at.
pub fn start(
    head: &Head,
    starts: &mut TreeMemory,
    ends: TreeView,
    time: &mut TreeMemory,
    tick: u32,
    key: u32,
    weight: u32,
) -> Reply
    ensures same_starts { SameSlices starts.old starts.new }
    ensures same_time { SameSlices time.old time.new }
    ensures replied { let s : Store = store_with head.now (words_of starts.old) (words_in ends.entry) (words_of time.old) in
        RepliedAs (perform s (start tick key weight)) result (lent_to_trees (words_of starts.new) (words_in ends.entry) (words_of time.new)) }
{
    let store = StoreView {
        head,
        starts: starts.view(),
        ends,
        time: time.view(),
    };
    if let Err(refusal) = start_refusal(&store, tick, key, weight) {
        return Reply::refused(refusal.number(), *head);
    }
    start_pass(*head, starts, time, tick, key, weight)
}

// An accepted end of the pass in a place of the head's list.
fn end_pass(
    head: Head,
    ends: &mut TreeMemory,
    time: &mut TreeMemory,
    tick: u32,
    place: usize,
    pass: OpenPass,
) -> Reply
    requires { EndAccepted (store_with head nothing_lent (words_of ends.old) (words_of time.old)) tick place pass }
    ensures same_ends { SameSlices ends.old ends.new }
    ensures same_time { SameSlices time.old time.new }
    ensures replied { (starts : LentTree) → RepliedAs (ended_as (store_with head starts (words_of ends.old) (words_of time.old)) tick (found_at place pass)) result
        (lent_to_trees starts (words_of ends.new) (words_of time.new)) }
{
    let value = one_pass(pass.weight);
    let ends_after = enter(
        ends.table,
        ends.roots,
        head.ends,
        tick,
        pass.key as u16,
        value,
    );
    let line = time_at_end(tick, pass.weight);
    let time_after = enter(
        time.table,
        time.roots,
        head.time,
        tick,
        pass.key as u16,
        line,
    );
    Reply {
        answer: Answer::Ended,
        head: ended_head(head, ends_after, time_after, tick, place),
    }
}

// The pass of a number ends. It is looked for first, in whatever head: the refusals and the end itself need it.
pub fn end(
    head: &Head,
    starts: TreeView,
    ends: &mut TreeMemory,
    time: &mut TreeMemory,
    tick: u32,
    number: u32,
) -> Reply
    ensures same_ends { SameSlices ends.old ends.new }
    ensures same_time { SameSlices time.old time.new }
    ensures replied { let s : Store = store_with head.now (words_in starts.entry) (words_of ends.old) (words_of time.old) in
        RepliedAs (perform s (end tick number)) result (lent_to_trees (words_in starts.entry) (words_of ends.new) (words_of time.new)) }
{
    let found = find_pass(*head, number);
    let store = StoreView {
        head,
        starts,
        ends: ends.view(),
        time: time.view(),
    };
    if let Err(refusal) = end_refusal(&store, tick, found) {
        return Reply::refused(refusal.number(), *head);
    }
    let Some(found) = found else {
        // It was refused by now
        return Reply::refused(Refusal::NotOpen.number(), *head);
    };
    end_pass(*head, ends, time, tick, found.place, found.pass)
}
