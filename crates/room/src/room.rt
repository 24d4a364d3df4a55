// What the slices that are lent to a tree have room for: 8, a tree's part of 20, and 26 to 28 of an entry that is planned.
ghost use Rattle.std.specs.Prelude.{◌≡◌, [], ◌∷◌, leb, ◌≤◌};
ghost use Rattle.tree.specs.Taking.{Takes};
ghost use Rattle.tree.specs.Tree.{whole_pages, pages_left};
ghost use Rattle.store.specs.Head.{use_fits_in};
ghost use Rattle.store.specs.Refused.{told};
ghost use Rattle.store.specs.Lending.{words_in, tree_of};
ghost use Rattle.store.specs.Refusals.{◌gives◌, first_met};
ghost use Rattle.store.specs.Writing.{too_small};
ghost use Rattle.room.specs.PlanGrounds.{plan_grounds};

use store::{Refusal, TreeView};
use tree::{Plan, RootChange, SpoiledPage, TreeUse};

// Whether a table has no room for a page, or a list none for a root.
pub fn too_small(lent: TreeView) -> bool
    ensures { result ≡ too_small (words_in lent.entry) }
{
    lent.table.len() < tree::PAGE_WORDS || lent.roots.len() < 1
}

// Whether a tree's use fits its table of so many words and its list of so many roots.
pub fn use_fits(used: TreeUse, words: usize, list: usize) -> bool
    ensures { result ≡ use_fits_in used words list }
{
    if used.pages < 1 {
        return false;
    }
    if used.roots < 1 {
        return false;
    }
    if TreeUse::PAGE_LIMIT < used.pages {
        return false;
    }
    if words / tree::PAGE_WORDS < used.pages as usize {
        return false;
    }
    if used.pages < used.roots {
        return false;
    }
    used.roots as usize <= list
}

// The pages that are left to a tree: the whole pages of its table, at most 1,000,000 of them, less those in use.
fn pages_left(table: &[u64], used: TreeUse) -> usize
    requires pages_bound { used.pages ≤ whole_pages table.now }
    requires takes { Takes used }
    ensures { result ≡ pages_left (record { table = table.entry.now; roots = []; used = used }) }
{
    let most = TreeUse::PAGE_LIMIT as usize;
    let whole = table.len() / tree::PAGE_WORDS;
    if whole < most {
        return whole - used.pages as usize;
    }
    most - used.pages as usize
}

// 28, for an entry that adds a root to a list of so many places.
fn list_refusal(places: usize, used: u32) -> Result<(), Refusal>
    ensures { told result ≡ first_met (leb places used gives 28 ∷ []) }
{
    if places <= used as usize {
        return Err(Refusal::LacksRoot);
    }
    Ok(())
}

// 26, 27 and 28: what the plan of an entry says of the pages met, of the pages left and of the root list.
pub fn entry_refusal(
    lent: TreeView,
    used: TreeUse,
    plan: Result<Plan, SpoiledPage>,
) -> Result<(), Refusal>
    requires pages_bound { used.pages ≤ whole_pages lent.table.now }
    requires takes { Takes used }
    ensures { told result ≡ first_met (plan_grounds (tree_of (words_in lent.entry) used) plan) }
{
    let Ok(plan) = plan else {
        return Err(Refusal::Spoiled);
    };
    if pages_left(lent.table, used) < plan.made as usize {
        return Err(Refusal::LacksPages);
    }
    match plan.root {
        RootChange::Kept => Ok(()),
        RootChange::Added => list_refusal(lent.roots.len(), used.roots),
        RootChange::Replaced => Ok(()),
    }
}
