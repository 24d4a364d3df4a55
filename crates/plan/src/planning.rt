// The plan of an entry, made before anything is written: whether a spoiled page is met, how many pages the entry makes, and what it
// does to the root list. Only counts of rows decide that, so the plan reads each page once and copies no row.
ghost use Rattle.std.specs.Prelude.{◌≡◌, cond, ◌+◌, ◌-◌, ◌≤◌, ◌<◌, length, eqb};
ghost use Rattle.words.specs.declared.value.Value.{Value};
ghost use Rattle.words.specs.Words.{open_end, root_birth};
ghost use Rattle.tree.specs.declared.types.RootChange.TheVariants as change;
ghost use Rattle.tree.specs.Tree.{top_level};
ghost use Rattle.tree.specs.Taking.{tree_with};
ghost use Rattle.tree.specs.Plan.{plan};
ghost use Rattle.tree.specs.Limits.{most_made};
ghost use Rattle.plan.specs.PlanSteps.{InWords, appended, met_survey, met_page, Few, FewParts};
ghost use Rattle.plan.specs.PlanSteps.{parts_of, plan_page, plan_above, plan_from, plan_top};

use live::Survey;
use page::Page;
use roots::{find_root, find_top};
use tree::{ExpectedPage, Plan, RootChange, Row, SpoiledPage, TreePages, TreeUse};

// The rows of a page before the entry: how many, how many live, and how many rows are appended where the row that gains the point,
// or the row around the key, is replaced: 0 for a row that is altered where it is, else 1.
#[derive(Clone, Copy)]
pub struct Counts {
    pub rows: usize,
    pub live: usize,
    pub gain: usize,
    pub inner: usize,
}

// What step 1 meets in a sound page: its counts, and the row around the key if there is one.
#[derive(Clone, Copy)]
pub struct Met {
    pub counts: Counts,
    pub around: Option<Row>,
}

// What the entry does from a page down: it makes so many pages, of which the last `parts` take the rows of the page itself: 0 where the page
// keeps its rows.
#[derive(Clone, Copy)]
pub struct PagePlan {
    pub made: u32,
    pub parts: u32,
}

// How many rows are appended where the row at a place is replaced at t.
fn appended_for(words: &[u64], place: Option<usize>, t: u32) -> usize
    requires { InWords words.now place }
    ensures { result ≡ appended t words.now place }
{
    let Some(at) = place else {
        return 0;
    };
    let row = rows::row_at(words, at);
    if row.birth == t {
        return 0;
    }
    1
}

// What step 1 meets in a page that is sound, of which the survey is known.
fn meet_words(words: &[u64], survey: Survey, t: u32) -> Met
    requires in_words { InWords words.now survey.gain }
    requires in_words_2 { InWords words.now survey.inner }
    ensures { result ≡ met_survey t words.now survey }
{
    let counts = Counts {
        rows: survey.rows,
        live: survey.live,
        gain: appended_for(words, survey.gain, t),
        inner: appended_for(words, survey.inner, t),
    };
    let around = survey.inner.map(|place| rows::row_at(words, place));
    Met { counts, around }
}

// One page of the descent, as one of this level and key range.
fn meet_page(tree: TreePages, expected: ExpectedPage, t: u32, k: u16) -> Result<Met, SpoiledPage>
    ensures { result ≡ met_page tree.entry.table.now tree.entry.used t k expected.level expected.low expected.high expected.page }
{
    let survey = live::survey_sound(tree, expected, t, k)?;
    Ok(meet_words(rows::page_at(tree.table, expected.page), survey, t))
}

// How many pages take the rows of a page that has so many rows, and so many live ones, after the steps.
fn parts_of(rows: usize, live: usize) -> u32
    ensures { result ≡ parts_of rows live }
{
    if rows <= Page::ROWS {
        return 0;
    }
    if live <= Page::COPIED {
        return 1;
    }
    2
}

// A page after its steps, with the pages made before it.
fn plan_page(made: u32, rows: usize, live: usize) -> PagePlan
    requires { made < most_made }
    ensures { result ≡ plan_page made rows live }
{
    let parts = parts_of(rows, live);
    PagePlan {
        made: made + parts,
        parts,
    }
}

// A page above the lowest, after its step 3 and, where its child's rows went to new pages, its step 7.
fn plan_above(counts: Counts, below: PagePlan) -> PagePlan
    requires few { Few counts }
    requires few_parts { FewParts (most_made - 1) below }
    ensures { result ≡ plan_above counts below }
{
    let rows = counts.rows + counts.gain;
    if below.parts == 0 {
        return plan_page(below.made, rows, counts.live);
    }
    let more = below.parts as usize - 1;
    plan_page(below.made, rows + counts.inner + more, counts.live + more)
}

// What the entry does from a page of a level down: steps 1 to 7.
fn plan_from(
    tree: TreePages,
    expected: ExpectedPage,
    t: u32,
    k: u16,
) -> Result<PagePlan, SpoiledPage>
    requires { expected.level ≤ top_level }
    ensures { result ≡ plan_from tree.entry.table.now tree.entry.used t k expected.level expected.low expected.high expected.page }
{
    let met = meet_page(tree, expected, t, k)?;
    let counts = met.counts;
    let Some(row) = met.around else {
        return Ok(plan_page(0, counts.rows + counts.gain, counts.live));
    };
    if expected.level == 0 {
        return Ok(plan_page(0, counts.rows + counts.inner + 1, counts.live + 1));
    }
    let child = ExpectedPage {
        page: row.child,
        level: expected.level - 1,
        low: row.low,
        high: row.high,
    };
    let below = plan_from(tree, child, t, k)?;
    Ok(plan_above(counts, below))
}

// What a new root does to the root list, whose last entry is `last`: it adds an entry, or replaces the last one if that was born at t.
fn root_change(last: u64, t: u32) -> RootChange
    ensures { result ≡ cond (eqb (root_birth last) t) change.Replaced change.Added }
{
    if words::root_birth(last) == t {
        return RootChange::Replaced;
    }
    RootChange::Added
}

// Step 8, for a root of level `top`: two halves get a new root, unless the root is at the top level already. Such a root would make a page more
// than an entry may.
fn plan_top(planned: PagePlan, top: u64, last: u64, t: u32) -> Result<Plan, SpoiledPage>
    requires { planned.made ≤ most_made + 1 }
    ensures { result ≡ plan_top planned.made planned.parts top last t }
{
    let made = planned.made;
    if planned.parts == 0 {
        return Ok(Plan {
            made,
            root: RootChange::Kept,
        });
    }
    let root = root_change(last, t);
    if planned.parts == 1 {
        return Ok(Plan { made, root });
    }
    if top == TreeUse::TOP_LEVEL {
        return Err(SpoiledPage);
    }
    Ok(Plan {
        made: made + 1,
        root,
    })
}

// What entering a point of any value at tick t and key k would do. Nothing is written.
pub fn plan(tree: TreePages, roots: &[u64], t: u32, k: u16) -> Result<Plan, SpoiledPage>
    requires roots_in_bounds { tree.used.roots ≤ length roots.now }
    requires t_lt_open_end { t < open_end }
    ensures { (v : Value) → result ≡ plan (tree_with tree.entry roots.now) (record { tick = t; key = k; value = v }) }
{
    let root = find_root(roots, tree.used.roots as usize, t);
    let top = find_top(tree, root)?;
    let first = ExpectedPage {
        page: top.page,
        level: top.level,
        low: 0,
        high: words::KEY_LIMIT,
    };
    let planned = plan_from(tree, first, t, k)?;
    let last = roots[tree.used.roots as usize - 1];
    plan_top(planned, top.level, last, t)
}
