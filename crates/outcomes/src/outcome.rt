// All that is seen of a call that was made on the store.
ghost use Rattle.std.specs.Prelude.{◌≤◌};
ghost use Rattle.tree.specs.Limits.{most_made};

use observed::{height, memory_sum, pages_opened, refusal_of, word_at};
use pass_book::Call;
use replies::Reply;
use store::{Answer, Head, Refusal, StoreView, TreeView};
use tree::TreeUse;

// The most pages that an entry makes in a tree so many pages high: two on each level and a new root, but no root above the top level.
fn most_made(height: u64) -> u64
    ensures { result ≤ most_made }
{
    2 * height.min(TreeUse::TOP_LEVEL) + 1
}

// Whether a tree may lack pages for an entry: more may be made than are left.
fn may_lack_pages(lent: TreeView, used: TreeUse) -> bool {
    let most = most_made(height(lent, used.roots));
    let whole = lent.table.len() / tree::PAGE_WORDS;
    (whole as u64) < used.pages as u64 + most
}

// Whether a tree may lack a place for a root at a tick: the list is full, and the last root was not born at the tick, so that it would not
// be replaced.
fn may_lack_root(roots: &[u64], used: TreeUse, tick: u32) -> bool {
    if (used.roots as usize) < roots.len() {
        return false;
    }
    let last = used.roots.wrapping_sub(1);
    words::root_birth(word_at(roots, last as usize)) < tick
}

// 27 or 28 where the store said so and where it can be so.
fn lacking(lent: TreeView, used: TreeUse, tick: u32, refusal: Option<u8>) -> Option<Refusal> {
    match refusal {
        Some(27) if may_lack_pages(lent, used) => Some(Refusal::LacksPages),
        Some(28) if may_lack_root(lent.roots, used, tick) => Some(Refusal::LacksRoot),
        _ => None,
    }
}

// What the book is told of a call, since it cannot know it: the store's refusal where it is 27 or 28 and can be so, and the pages on the paths that
// the call's lookups follow. Beside it, whether 27 came where only the tree of time may lack pages.
#[derive(Clone, Copy)]
pub struct Hints {
    pub lacking: Option<Refusal>,
    pub pages: u32,
    pub for_time: bool,
}

// The hints for a call that writes two trees, by what each of them may lack.
fn lacking_hints(own: Option<Refusal>, time: Option<Refusal>) -> Hints {
    Hints {
        lacking: own.or(time),
        pages: 0,
        for_time: own.is_none() && time == Some(Refusal::LacksPages),
    }
}

// The hints for a call, by the trees that it writes or the lookups that it makes.
fn hints_of(store: &StoreView, call: Call, refusal: Option<u8>) -> Hints {
    let head = store.head;
    match call {
        Call::Open => lacking_hints(None, None),
        Call::Start { tick, .. } => lacking_hints(
            lacking(store.starts, head.starts, tick, refusal),
            lacking(store.time, head.time, tick, refusal),
        ),
        Call::End { tick, .. } => lacking_hints(
            lacking(store.ends, head.ends, tick, refusal),
            lacking(store.time, head.time, tick, refusal),
        ),
        Call::Ask(asked) => Hints {
            lacking: None,
            pages: pages_opened(store, asked),
            for_time: false,
        },
    }
}

// What a call on the store came to: its answer and its head, what the list is told of it, and whether the words that are lent were left as
// they were.
#[derive(Clone, Copy)]
pub struct Outcome {
    pub answer: Answer,
    pub head: Head,
    pub hints: Hints,
    pub unchanged: bool,
}

// The call's answer and head, and what the words then say beside them. `store` has the head before the call and the words after it, and `before` is the sum of
// the words before it.
pub fn outcome_of(store: &StoreView, reply: Reply, before: u64, call: Call) -> Outcome {
    let left = StoreView {
        head: &reply.head,
        ..*store
    };
    Outcome {
        answer: reply.answer,
        head: reply.head,
        hints: hints_of(store, call, refusal_of(reply.answer)),
        unchanged: before == memory_sum(&left),
    }
}
