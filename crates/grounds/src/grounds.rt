// The grounds of a call's arguments, and those of what a head knows. Each function tests its grounds in number order and returns the refusal
// of the first that is met.
ghost use Rattle.std.specs.Prelude.{◌≡◌, [], ◌∷◌};
ghost use Rattle.store.specs.Calls.{start, question};
ghost use Rattle.store.specs.Refusals.{first_met};
ghost use Rattle.store.specs.Refused.{told};
ghost use Rattle.store.specs.Grounds.{key_too_high, no_tick, argument_grounds, before_last, all_open, all_started, not_open};
ghost use Rattle.store.specs.Performing.{is_found};

use store::{FoundPass, Head, OpenPass, Refusal};

// The input of a start: 1, 3, 4.
pub fn start_input(tick: u32, key: u32, weight: u32) -> Result<(), Refusal>
    ensures { told result ≡ first_met (argument_grounds (start tick key weight)) }
{
    if OpenPass::KEY_LIMIT <= key {
        return Err(Refusal::KeyTooHigh);
    }
    if weight == 0 {
        return Err(Refusal::WeightBeyond);
    }
    if OpenPass::HEAVIEST < weight {
        return Err(Refusal::WeightBeyond);
    }
    if tick == words::OPEN {
        return Err(Refusal::NoTick);
    }
    Ok(())
}

// The input of an end: 4. Any number may be that of a pass.
pub fn end_input(tick: u32) -> Result<(), Refusal>
    ensures { told result ≡ first_met (no_tick tick ∷ []) }
{
    if tick == words::OPEN {
        return Err(Refusal::NoTick);
    }
    Ok(())
}

// The input of a question: 1, 2, 5. The tick 4,294,967,295 may be its t2, which is not included.
pub fn question_input(k1: u32, k2: u32, t1: u32, t2: u32) -> Result<(), Refusal>
    ensures { told result ≡ first_met (argument_grounds (question k1 k2 t1 t2)) }
{
    if OpenPass::KEY_LIMIT <= k1 {
        return Err(Refusal::KeyTooHigh);
    }
    if OpenPass::KEY_LIMIT < k2 {
        return Err(Refusal::KeyTooHigh);
    }
    if k2 <= k1 {
        return Err(Refusal::NoBand);
    }
    if t2 <= t1 {
        return Err(Refusal::NoTime);
    }
    Ok(())
}

// The input of a lookup: 1, 4.
pub fn lookup_input(t: u32, k: u32) -> Result<(), Refusal>
    ensures { told result ≡ first_met (key_too_high k ∷ (no_tick t ∷ [])) }
{
    if OpenPass::KEY_LIMIT <= k {
        return Err(Refusal::KeyTooHigh);
    }
    if t == words::OPEN {
        return Err(Refusal::NoTick);
    }
    Ok(())
}

// A start, by the head's last tick, open passes and passes started: 21, 24, 25. The head fits by then, so `count` is at most 64.
pub fn start_state(last: u32, count: u32, started: u32, tick: u32) -> Result<(), Refusal>
    ensures { told result ≡ first_met (before_last last tick ∷ (all_open count ∷ (all_started started ∷ []))) }
{
    if tick < last {
        return Err(Refusal::BeforeLast);
    }
    if Head::OPEN_LIMIT <= count {
        return Err(Refusal::AllOpen);
    }
    if Head::PASS_LIMIT <= started {
        return Err(Refusal::AllStarted);
    }
    Ok(())
}

// An end, by the head's last tick and where the pass of its number was found: 21, 22.
pub fn end_state(last: u32, tick: u32, found: Option<FoundPass>) -> Result<(), Refusal>
    ensures { told result ≡ first_met (before_last last tick ∷ (not_open (is_found found) ∷ [])) }
{
    if tick < last {
        return Err(Refusal::BeforeLast);
    }
    match found {
        None => Err(Refusal::NotOpen),
        Some(_) => Ok(()),
    }
}
