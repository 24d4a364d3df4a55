// Opening a store: three empty trees, and a head that says so.
ghost use Rattle.std.specs.Prelude.{◌≡◌, ◌≤◌, length};
ghost use Rattle.tree.specs.Row.{page_words};
ghost use Rattle.tree.specs.Opened.{opened_tree};
ghost use Rattle.store.specs.Trees.{Store};
ghost use Rattle.store.specs.Lending.{words_of, lent_to_trees, store_with, SameSlices};
ghost use Rattle.store.specs.Calls.{opening};
ghost use Rattle.store.specs.Performing.{perform};
ghost use Rattle.replies.specs.Replies.{RepliedAs};

use page::Page;
use refusals::opening_refusal;
use replies::Reply;
use split::put_page;
use store::{Answer, Head, TreeMemory};
use words::Value;

// Page 0, a leaf with one row of value zero over all keys, born at 0, and the first root entry, which is for it. No other word changes.
fn open_tree(tree: &mut TreeMemory)
    requires page_words_in_bounds { page_words ≤ length tree.old.table.now }
    requires in_bounds { 1 ≤ length tree.old.roots.now }
    ensures same_tree { SameSlices tree.old tree.new }
    ensures table_after { tree.new.table.now ≡ (opened_tree tree.old.table.now tree.old.roots.now).table }
    ensures roots_after { tree.new.roots.now ≡ (opened_tree tree.old.table.now tree.old.roots.now).roots }
{
    let row = rows::new_row(0, 0, words::KEY_LIMIT, 0, Value::zero());
    put_page(
        tree.table,
        0,
        Page::empty(0, 0, words::KEY_LIMIT, 0).with_row(row),
    );
    tree.roots[0] = words::root_entry(0, 0);
}

// Opens a store in the memory that is lent, whatever it holds. Refused, it changes nothing and hands back the head that it got.
pub fn open(
    head: Head,
    starts: &mut TreeMemory,
    ends: &mut TreeMemory,
    time: &mut TreeMemory,
) -> Reply
    ensures same_starts { SameSlices starts.old starts.new }
    ensures same_ends { SameSlices ends.old ends.new }
    ensures same_time { SameSlices time.old time.new }
    ensures replied { let s : Store = store_with head (words_of starts.old) (words_of ends.old) (words_of time.old) in
        RepliedAs (perform s opening) result (lent_to_trees (words_of starts.new) (words_of ends.new) (words_of time.new)) }
{
    if let Err(refusal) = opening_refusal(starts.view(), ends.view(), time.view()) {
        return Reply::refused(refusal.number(), head);
    }
    open_tree(starts);
    open_tree(ends);
    open_tree(time);
    Reply {
        answer: Answer::Opened,
        head: open_passes::opened_head(),
    }
}
