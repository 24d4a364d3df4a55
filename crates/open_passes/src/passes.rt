// The open passes of a head, in order of opening: a pass is found by its number, added behind the others by a start, taken out by an end.
ghost use Rattle.std.specs.Prelude.{◌≡◌, ◌≤◌, ◌<◌, min};
ghost use Rattle.store.specs.Trees.{with_use};
ghost use Rattle.store.specs.Head.{open_limit, pass_limit, found_at, pass_of, opened_head};
ghost use Rattle.store.specs.Writing.{started_head, ended_head};
ghost use Rattle.store.specs.declared.types.TreeName.TheVariants.{Starts, Ends, Time};
ghost use Rattle.store.specs.declared.types.OpenPass.{OpenPass};

use store::{FoundPass, Head, OpenPass};
use tree::TreeUse;

// How many passes a list of 64 places has, of a head that may say more.
fn listed(count: u32) -> usize
    ensures { result ≡ min count open_limit }
{
    (count as usize).min(Head::PLACES)
}

// The open pass of a number, and its place, in any head.
pub fn find_pass(head: Head, number: u32) -> Option<FoundPass>
    ensures { result ≡ pass_of head number }
{
    let count = listed(head.count);
    for (place, pass) in head.passes[..count].iter().enumerate() {
        if pass.number == number {
            return Some(FoundPass { place, pass: *pass });
        }
    }
    None
}

// The head after a start: one more open pass, behind the others. `starts` and `time` are what these trees use then.
pub fn started_head(
    mut head: Head,
    starts: TreeUse,
    time: TreeUse,
    tick: u32,
    key: u32,
    weight: u32,
) -> Head
    requires count_lt_open_limit { head.count < open_limit }
    requires started_lt_pass_limit { head.started < pass_limit }
    ensures { result ≡ started_head (with_use (with_use head Starts starts) Time time) tick key weight }
{
    let number = head.started;
    let count = head.count;
    let place = count as usize;
    head.passes[place] = OpenPass {
        number,
        key,
        weight,
        start: tick,
    };
    head.last = tick;
    head.started = number + 1;
    head.count = count + 1;
    head.starts = starts;
    head.time = time;
    head
}

// The head after the end of the pass at a place: each later pass moves down one place, so that the order of opening has no gap, and the
// place set free becomes zero. `ends` and `time` are what these trees use then.
pub fn ended_head(mut head: Head, ends: TreeUse, time: TreeUse, tick: u32, place: usize) -> Head
    requires place_lt_count { place < head.count }
    requires count_le_open_limit { head.count ≤ open_limit }
    ensures { (pass : OpenPass) → result ≡ ended_head (with_use (with_use head Ends ends) Time time) tick (found_at place pass) }
{
    let count = head.count - 1;
    let last = count as usize;
    head.passes.copy_within(place + 1..last + 1, place);
    let empty = OpenPass::default();
    head.passes[last] = empty;
    head.last = tick;
    head.count = count;
    head.ends = ends;
    head.time = time;
    head
}

// The head of a store that is just opened.
pub fn opened_head() -> Head
    ensures { result ≡ opened_head }
{
    let one = TreeUse { pages: 1, roots: 1 };
    Head {
        last: 0,
        started: 0,
        count: 0,
        passes: [OpenPass::default(); Head::PLACES],
        starts: one,
        ends: one,
        time: one,
    }
}
