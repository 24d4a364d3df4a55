// What a call leaves beside its answer: the head, and the words that are lent.
use pass_list::{ListedPass, PassBook, open_count};
use random_calls::PASSES;
use store::{Head, OpenPass, StoreView, TreeView};
use tree::TreeUse;

// An unused place. It is written out here: the calls take theirs from `OpenPass`, and what looks at them shares no code with them.
const UNUSED: OpenPass = OpenPass {
    number: 0,
    key: 0,
    weight: 0,
    start: 0,
};

// Whether a place of the head has an open pass of the list, with a number not below `least`.
fn is_listed(open: OpenPass, least: u32, passes: &[ListedPass]) -> bool {
    let pass = ListedPass {
        key: open.key,
        weight: open.weight,
        start: open.start,
        end: words::OPEN,
    };
    least <= open.number && passes.get(open.number as usize) == Some(&pass)
}

// Whether a place has what it should: an open pass below the number of open ones, "unused places zero" from there on.
fn place_agrees(open: OpenPass, used: bool, least: u32, passes: &[ListedPass]) -> bool {
    if used {
        return is_listed(open, least, passes);
    }
    open == UNUSED
}

// Whether the head's places have the list's open passes, in order of opening. Their numbers rise and they are as many as the list has open,
// so none is left out.
fn places_agree(head: Head, passes: &[ListedPass]) -> bool {
    let mut least: u32 = 0;
    for (place, open) in head.passes.iter().enumerate() {
        if !place_agrees(*open, place < head.count as usize, least, passes) {
            return false;
        }
        least = open.number.wrapping_add(1);
    }
    true
}

// Whether the head has the last tick, the number started and the open passes of the list.
pub fn head_agrees(head: Head, passes: &[ListedPass; PASSES], book: PassBook) -> bool {
    let started = book.started;
    started as usize <= PASSES
        && head.last == book.last
        && head.started == started
        && head.count == open_count(passes, started)
        && places_agree(head, &passes[..started as usize])
}

// A number for the words of a slice and a number before them, another one for nearly every change of a word. A slice of the whole
// memory is passed over: there it would take too long after every call.
fn summed(slice: &[u64], before: u64) -> u64 {
    let mut sum = before % 2147483647;
    if 2260 < slice.len() {
        return sum;
    }
    for word in slice {
        sum = (sum % 2147483647 * 48271 + *word % 2147483647 + 1) % 2147483647;
    }
    sum
}

// A number for the words that are lent to a tree, for the pages and roots that it uses, and for a number before them.
fn tree_sum(lent: TreeView, used: TreeUse, before: u64) -> u64 {
    let words = summed(lent.roots, summed(lent.table, before));
    let numbers = [used.pages as u64, used.roots as u64];
    summed(&numbers, words)
}

// A number for all the words that are lent, and for the pages and roots that the head says are in use.
pub fn memory_sum(store: &StoreView) -> u64 {
    let head = store.head;
    let starts = tree_sum(store.starts, head.starts, 1);
    let both = tree_sum(store.ends, head.ends, starts);
    tree_sum(store.time, head.time, both)
}
