// What the passes add up to in a question, in bat-time or in a lookup.
ghost use Rattle.std.specs.Prelude.{◌≡◌, ◌*◌, ◌%◌, ◌^◌, ◌≤◌, length};
ghost use Rattle.words.specs.Lists.{All};
ghost use Rattle.words.specs.Value.{subtract_words, line};
ghost use Rattle.store.specs.Passes.{meets};
ghost use Rattle.store.specs.BatTime.{shared_ticks};
ghost use Rattle.store.specs.Points.{points_of_pass};
ghost use Rattle.pass_list.specs.declared.types.Asked.TheVariants.{Question, BatTime};
ghost use Rattle.pass_list.specs.PassList.{pass_of, passes_in, Light};
ghost use Rattle.pass_list.specs.Counted.{is_below, point_worth, end_worth, points_worth, worth, total_of};

use crate::types::{Asked, ListedPass, Window};
use store::TreeName;
use words::Value;

// "the passes with k1 ≤ key < k2" that meet the question: "s < t2 and e ≥ t1", or open
fn meets_band(pass: ListedPass, window: Window) -> bool
    ensures { result ≡ meets window.k1 window.k2 window.t1 window.t2 (pass_of pass) }
{
    if pass.key < window.k1 || window.k2 <= pass.key || window.t2 <= pass.start {
        return false;
    }
    pass.is_open() || window.t1 <= pass.end
}

// "points with tick ≤ t and key ≤ k"
fn is_below(tick: u32, key: u32, t: u32, k: u32) -> bool
    ensures { result ≡ is_below t k tick key }
{
    tick <= t && key <= k
}

// What a point adds to a lookup.
fn point_worth(tick: u32, key: u32, value: Value, t: u32, k: u32) -> Value
    ensures { result ≡ point_worth t k tick key value }
{
    if is_below(tick, key, t, k) {
        return value;
    }
    Value::zero()
}

// What the point at the end of a pass adds, which it has only once it has ended.
fn end_worth(pass: ListedPass, value: Value, t: u32, k: u32) -> Value
    ensures { result ≡ end_worth t k pass.end pass.key value }
{
    if pass.is_open() {
        return Value::zero();
    }
    point_worth(pass.end, pass.key, value, t, k)
}

// A point of the starts or of the ends: a count of 1 and a weight.
fn one_pass(weight: u32) -> Value
    ensures { result ≡ record { count = 1; sum = weight } }
{
    Value {
        count: 1,
        sum: weight as u64,
    }
}

// Points of the tree of time, with the factor of t and the constant: w and w - w × s at a start. The crate time_points has these two lines for the store's calls; the
// book is what the calls are compared with, so it has its own.
fn start_line(start: u32, weight: u32) -> Value
    ensures { result ≡ line weight (subtract_words weight (weight * start)) }
{
    let w = weight as u64;
    Value::line(w, w.wrapping_sub(w * start as u64))
}

// -w and w × e at an end.
fn end_line(end: u32, weight: u32) -> Value
    ensures { result ≡ line (subtract_words 0 weight) (weight * end % 2 ^ 64) }
{
    let w = weight as u64;
    Value::line(0u64.wrapping_sub(w), w * end as u64)
}

// What the points of a pass in a tree add to a lookup.
fn points_worth(pass: ListedPass, tree: TreeName, t: u32, k: u32) -> Value
    ensures { result ≡ points_worth t k (points_of_pass tree (pass_of pass)) }
{
    match tree {
        TreeName::Starts => point_worth(pass.start, pass.key, one_pass(pass.weight), t, k),
        TreeName::Ends => end_worth(pass, one_pass(pass.weight), t, k),
        TreeName::Time => {
            let started = point_worth(
                pass.start,
                pass.key,
                start_line(pass.start, pass.weight),
                t,
                k,
            );
            started.plus(end_worth(pass, end_line(pass.end, pass.weight), t, k))
        }
    }
}

// What a pass adds to a question.
fn band_worth(pass: ListedPass, window: Window) -> Value
    ensures { result ≡ worth (Question window) (pass_of pass) }
{
    if meets_band(pass, window) {
        return one_pass(pass.weight);
    }
    Value::zero()
}

// The ticks from t1 up to but not t2 at which a pass lives.
fn shared_ticks(pass: ListedPass, window: Window) -> u32
    ensures { result ≡ shared_ticks window.t1 window.t2 (pass_of pass).start (pass_of pass).end }
{
    let from = window.t1.max(pass.start);
    if pass.is_open() {
        return window.t2.saturating_sub(from);
    }
    window.t2.min(pass.end + 1).saturating_sub(from)
}

// What a pass adds to bat-time.
fn time_worth(pass: ListedPass, window: Window) -> Value
    ensures { result ≡ worth (BatTime window) (pass_of pass) }
{
    if pass.key < window.k1 || window.k2 <= pass.key {
        return Value::zero();
    }
    Value {
        count: 0,
        sum: pass.weight as u64 * shared_ticks(pass, window) as u64,
    }
}

// What a pass adds to what is asked. Its weight is a number of 32 bits.
fn worth_of(pass: ListedPass, asked: Asked) -> Value
    ensures value { result ≡ worth asked (pass_of pass) }
    ensures light { Light (pass_of pass) }
{
    match asked {
        Asked::Question(window) => band_worth(pass, window),
        Asked::BatTime(window) => time_worth(pass, window),
        Asked::Lookup { tree, t, k } => points_worth(pass, tree, t, k),
    }
}

// What the first passes add together. Their weights are numbers of 32 bits, so that no count and no weight sum is cut.
pub fn totals(passes: &[ListedPass], started: u32, asked: Asked) -> Value
    requires { started ≤ length passes.now }
    ensures value { result ≡ total_of asked (passes_in passes.now started) }
    ensures all { All Light (passes_in passes.now started) }
{
    let mut total = Value::zero();
    for pass in &passes[..started as usize] {
        total = total.plus(worth_of(*pass, asked));
    }
    total
}
