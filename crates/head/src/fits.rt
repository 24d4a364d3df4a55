// Refusal 20: a head that doesn't fit. Any head may be handed in, so the number of open passes is tested before a place is read.
ghost use Rattle.std.specs.Prelude.{◌≡◌, ◌&&◌, ◌≤◌};
ghost use Rattle.store.specs.Lending.{store_seen, words_in, tree_of};
ghost use Rattle.store.specs.Head.{open_limit, open_passes, pass_fits, passes_fit, numbers_rise, use_fits, head_fits};

use room::use_fits;
use store::{Head, OpenPass, StoreView, TreeView};
use tree::TreeUse;

// Whether an open pass has a key and a weight in range, a number below the number started and a start no later than the last tick.
fn pass_fits(started: u32, last: u32, pass: OpenPass) -> bool
    ensures { result ≡ pass_fits started last pass }
{
    pass.key < OpenPass::KEY_LIMIT
        && 1 <= pass.weight
        && pass.weight <= OpenPass::HEAVIEST
        && pass.number < started
        && pass.start <= last
}

// Whether each open pass fits and their numbers rise. `least` is the least number that the next pass may have; it cannot wrap, since a
// pass that fits has a number below the number started.
fn passes_fit(head: &Head) -> bool
    requires { head.now.count ≤ open_limit }
    ensures { result ≡ (passes_fit head.now.started head.now.last (open_passes head.now) && numbers_rise (open_passes head.now)) }
{
    let mut least: u32 = 0;
    for pass in &head.passes[..head.count as usize] {
        if pass.number < least {
            return false;
        }
        if !pass_fits(head.started, head.last, *pass) {
            return false;
        }
        least = pass.number + 1;
    }
    true
}

// Whether a tree's use fits what is lent to it.
fn tree_fits(used: TreeUse, lent: TreeView) -> bool
    ensures { result ≡ use_fits (tree_of (words_in lent.entry) used) }
{
    use_fits(used, lent.table.len(), lent.roots.len())
}

// Whether the head fits what is lent with it. Of what is lent only the lengths count.
pub fn head_fits(store: &StoreView) -> bool
    ensures { result ≡ head_fits (store_seen store.now) }
{
    let head = store.head;
    if Head::OPEN_LIMIT < head.count {
        return false;
    }
    if Head::PASS_LIMIT < head.started {
        return false;
    }
    if !tree_fits(head.starts, store.starts) {
        return false;
    }
    if !tree_fits(head.ends, store.ends) {
        return false;
    }
    if !tree_fits(head.time, store.time) {
        return false;
    }
    passes_fit(head)
}
