// The refusal lists: the first ground that is met. What a ground reads is looked at only where no earlier one is met,
// since only then may it be trusted: the head after 20, the open passes and the trees after that. The plan, which opens pages, comes last.
ghost use Rattle.std.specs.Prelude.{◌≡◌, ℕ, ◌<◌};
ghost use Rattle.words.specs.Words.{open_end};
ghost use Rattle.words.specs.declared.value.Value.{Value};
ghost use Rattle.tree.specs.Tree.{Tree};
ghost use Rattle.tree.specs.Plan.{plan};
ghost use Rattle.tree.proofs.Main.{UseFits};
ghost use Rattle.room.specs.PlanGrounds.{plan_grounds};
ghost use Rattle.store.specs.Trees.{Lent};
ghost use Rattle.store.specs.Lending.{words_in, tree_of, lent_to_trees, store_seen};
ghost use Rattle.store.specs.Refused.{told};
ghost use Rattle.store.specs.declared.types.Head.{Head};
ghost use Rattle.store.specs.Head.{pass_of};
ghost use Rattle.store.specs.Calls.{opening, start, end};
ghost use Rattle.store.specs.Refusals.{first_met};
ghost use Rattle.store.specs.Performing.{refusal};
ghost use Rattle.refusals.specs.Grounds.{earlier, head_grounds, lower_of};

use grounds::{end_input, end_state, start_input, start_state};
use head::head_fits;
use room::{entry_refusal, too_small};
use store::{FoundPass, Refusal, StoreView, TreeView};
use tree::{TreePages, TreeUse};

// The refusal of an opening, which sees no head. Each tree is tested before one is written.
pub fn opening_refusal(starts: TreeView, ends: TreeView, time: TreeView) -> Result<(), Refusal>
    ensures { let lent : Lent = lent_to_trees (words_in starts.entry) (words_in ends.entry) (words_in time.entry) in
        ((head : Head) → told result ≡ refusal (record { head = head; lent = lent }) opening) }
{
    if too_small(starts) {
        return Err(Refusal::TooSmall);
    }
    if too_small(ends) {
        return Err(Refusal::TooSmall);
    }
    if too_small(time) {
        return Err(Refusal::TooSmall);
    }
    Ok(())
}

// 20, of every call but an opening, once its input calls for no refusal.
fn head_refusal(store: &StoreView) -> Result<(), Refusal>
    ensures { told result ≡ first_met (head_grounds (store_seen store.now)) }
{
    if head_fits(store) {
        return Ok(());
    }
    Err(Refusal::HeadMisfits)
}

// The refusals of a call that only reads, before it opens a page: those of its input, and then 20.
pub fn reading_refusal(store: &StoreView, input: Result<(), Refusal>) -> Result<(), Refusal>
    ensures { told result ≡ earlier (told input) (first_met (head_grounds (store_seen store.now))) }
{
    input?;
    head_refusal(store)
}

// 26, 27 and 28 of a point of any value that is to be entered into a tree. Nothing is written.
fn planned_refusal(lent: TreeView, used: TreeUse, tick: u32, key: u16) -> Result<(), Refusal>
    requires use_fits { UseFits (tree_of (words_in lent) used) }
    requires tick_lt_open_end { tick < open_end }
    ensures { let tree : Tree = tree_of (words_in lent.entry) used in
        ((value : Value) → told result ≡ first_met (plan_grounds tree (plan tree (record { tick = tick; key = key; value = value })))) }
{
    let tree = TreePages {
        table: lent.table,
        used,
    };
    let plan = plan::plan(tree, lent.roots, tick, key);
    entry_refusal(lent, used, plan)
}

// The refusal of a call that enters two points, from that of each: 26 of either comes before 27 of either, and that before 28 of either.
fn lower_refusal(one: Result<(), Refusal>, other: Result<(), Refusal>) -> Result<(), Refusal>
    ensures { told result ≡ lower_of (told one) (told other) }
{
    let Err(first) = one else {
        return other;
    };
    let Err(second) = other else {
        return one;
    };
    if second.number() < first.number() {
        return other;
    }
    one
}

// The refusal of a start.
pub fn start_refusal(store: &StoreView, tick: u32, key: u32, weight: u32) -> Result<(), Refusal>
    ensures { told result ≡ refusal (store_seen store.now) (start tick key weight) }
{
    start_input(tick, key, weight)?;
    head_refusal(store)?;
    let head = store.head;
    start_state(head.last, head.count, head.started, tick)?;
    let one = planned_refusal(store.starts, head.starts, tick, key as u16);
    let other = planned_refusal(store.time, head.time, tick, key as u16);
    lower_refusal(one, other)
}

// The refusal of an end, from where the pass of its number was found. The pass gives the key of the points to plan.
pub fn end_refusal(store: &StoreView, tick: u32, found: Option<FoundPass>) -> Result<(), Refusal>
    requires { (number : ℕ) × (found ≡ pass_of store.now.head.now number) }
    ensures { (number : ℕ) → found ≡ pass_of store.now.head.now number → told result ≡ refusal (store_seen store.now) (end tick number) }
{
    end_input(tick)?;
    head_refusal(store)?;
    let head = store.head;
    end_state(head.last, tick, found)?;
    let Some(found) = found else {
        // It was refused by then
        return Err(Refusal::NotOpen);
    };
    let one = planned_refusal(store.ends, head.ends, tick, found.pass.key as u16);
    let other = planned_refusal(store.time, head.time, tick, found.pass.key as u16);
    lower_refusal(one, other)
}
