// What starts and ends add to the tree of time: the factor and the constant of a line over ticks.
ghost use Rattle.std.specs.Prelude.{◌≡◌};
ghost use Rattle.store.specs.Writing.{time_at_start, time_at_end};

use words::Value;

// What a start adds to the tree of time: at a tick t from then on, the weight times the ticks from the start to t, both included.
pub fn time_at_start(tick: u32, weight: u32) -> Value
    ensures { result ≡ (time_at_start tick 0 weight).value }
{
    let w = weight as u64;
    Value::line(w, w.wrapping_sub(w * (tick as u64)))
}

// What an end adds to it: at a tick t from then on, the weight times the ticks that have gone by since is taken away, so that what the start added stays as it was at the
// end.
pub fn time_at_end(tick: u32, weight: u32) -> Value
    ensures { result ≡ (time_at_end tick 0 weight).value }
{
    let w = weight as u64;
    Value::line(0u64.wrapping_sub(w), w * (tick as u64))
}
