// The lookup of each tree.
ghost use Rattle.std.specs.Prelude.{◌≡◌};
ghost use Rattle.store.specs.declared.types.TreeName.TheVariants.{Starts, Ends, Time};
ghost use Rattle.store.specs.Lending.{store_seen};
ghost use Rattle.store.specs.Calls.{lookup_in};
ghost use Rattle.store.specs.Performing.{perform};

use found_answers::answer_of;
use grounds::lookup_input;
use lookup::lookup;
use refusals::reading_refusal;
use store::{Answer, StoreView, TreeName};
use tree::TreePages;

// The lookup of a tree, by its name. Of the tree of time the factor and the constant stand as count and sum.
pub fn lookup_in(store: &StoreView, tree: TreeName, t: u32, k: u32) -> Answer
    ensures { result ≡ (perform (store_seen store.now) (lookup_in tree t k)).answer }
{
    if let Err(refusal) = reading_refusal(store, lookup_input(t, k)) {
        return Answer::from(refusal);
    }
    let lent = store.lent_to(tree);
    let pages = TreePages {
        table: lent.table,
        used: store.head.used_by(tree),
    };
    answer_of(lookup(pages, lent.roots, t, k as u16))
}

// The lookup of the tree of starts. Each tree has a function of its own, so that no caller can name a wrong tree.
pub fn lookup_starts(store: &StoreView, t: u32, k: u32) -> Answer
    ensures { result ≡ (perform (store_seen store.now) (lookup_in Starts t k)).answer }
{
    lookup_in(store, TreeName::Starts, t, k)
}

// The lookup of the tree of ends, at its own ticks: it is not shifted as a question's are.
pub fn lookup_ends(store: &StoreView, t: u32, k: u32) -> Answer
    ensures { result ≡ (perform (store_seen store.now) (lookup_in Ends t k)).answer }
{
    lookup_in(store, TreeName::Ends, t, k)
}

// The lookup of the tree of time: the factor and the constant stand as count and sum.
pub fn lookup_time(store: &StoreView, t: u32, k: u32) -> Answer
    ensures { result ≡ (perform (store_seen store.now) (lookup_in Time t k)).answer }
{
    lookup_in(store, TreeName::Time, t, k)
}
