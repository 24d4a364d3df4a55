// The shape of a history: how the keys of its passes are drawn, and its pace.
ghost use Rattle.std.specs.Prelude.{◌<◌};

use crate::random::{draw, one_in};

// How keys are drawn.
#[derive(Clone, Copy)]
pub enum Keys {
    Uniform,
    // A few species
    Bands,
    OneBand,
    Rising,
}

// How ticks go on.
#[derive(Clone, Copy)]
pub enum Pace {
    // One tick or none
    Slow,
    // Many calls at one tick, then a jump
    Swarms,
    Jumps,
    // Up to the last tick of all
    Late,
}

#[derive(Clone, Copy)]
pub struct Shape {
    pub keys: Keys,
    pub pace: Pace,
}

// The key of a band, by its number.
fn band(number: u32) -> u32
    ensures { result < 20000 }
{
    match number {
        0 => 2000,
        1 => 2500,
        2 => 4500,
        3 => 5500,
        _ => 11000,
    }
}

// A key in a band of a species.
fn band_key(random: &mut u64) -> u32
    ensures { result < 30000 }
{
    let low = band(draw(random, 5));
    low + draw(random, 150)
}

// The key of a pass.
pub fn key(random: &mut u64, keys: Keys, started: u32) -> u32
    ensures { result < 30000 }
{
    match keys {
        Keys::Uniform => draw(random, 30000),
        Keys::Bands => band_key(random),
        Keys::OneBand => 4400 + draw(random, 300),
        Keys::Rising => started % 30000 * 17 % 30000,
    }
}

// How far the tick of a swarm goes on.
fn swarm_step(random: &mut u64) -> u32
    ensures { result < 5001 }
{
    if one_in(random, 40) {
        return 1 + draw(random, 5000);
    }
    0
}

// The tick of a pace that comes close to the last tick of all and stays there.
fn late_tick(random: &mut u64, last: u32) -> u32 {
    if last < 4294960000 {
        return 4294960000;
    }
    if 4294967290 < last {
        return 4294967294;
    }
    last + draw(random, 3)
}

// The next tick. One that wraps is too early, and refused.
pub fn tick(random: &mut u64, pace: Pace, last: u32) -> u32 {
    match pace {
        Pace::Slow => last.wrapping_add(draw(random, 2)),
        Pace::Swarms => last.wrapping_add(swarm_step(random)),
        Pace::Jumps => last.wrapping_add(draw(random, 65536)),
        Pace::Late => late_tick(random, last),
    }
}
