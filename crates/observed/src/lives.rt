// What histories reach of closed lives: clicks, and ticks at which many passes end.
use pass_book::Call;
use pass_list::{ListedPass, PassBook};
use random_calls::PASSES;
use store::Answer;

#[derive(Clone, Copy, Default)]
pub struct Lives {
    // Passes that ended at their own start tick
    pub clicks: u64,
    // How many passes have ended at the last tick, and the most that one tick had
    pub ends_at_last: u64,
    pub most_ends: u64,
}

// Whether a call that was accepted ended a pass at its own start tick.
fn is_click(call: Call, passes: &[ListedPass; PASSES]) -> bool {
    let Call::End { tick, number } = call else {
        return false;
    };
    passes
        .get(number as usize)
        .is_some_and(|pass| pass.start == tick)
}

impl Lives {
    // At a tick at which no pass has ended yet.
    fn at_new_tick(self) -> Lives {
        Lives {
            ends_at_last: 0,
            ..self
        }
    }

    // At a tick, which may be another one than the last.
    fn at(self, tick: u32, last: u32) -> Lives {
        if tick == last {
            return self;
        }
        self.at_new_tick()
    }

    // One more end at the last tick.
    fn with_end(self, call: Call, passes: &[ListedPass; PASSES]) -> Lives {
        let ends = self.ends_at_last.wrapping_add(1);
        Lives {
            clicks: self.clicks.wrapping_add(u64::from(is_click(call, passes))),
            ends_at_last: ends,
            most_ends: self.most_ends.max(ends),
        }
    }

    // After a call with its answer, by the book before it and the one after it. In a store opened anew no pass has ended.
    pub fn after(
        self,
        call: Call,
        answer: Answer,
        before: PassBook,
        now: PassBook,
        passes: &[ListedPass; PASSES],
    ) -> Lives {
        let at = self.at(now.last, before.last);
        match answer {
            Answer::Ended => at.with_end(call, passes),
            Answer::Opened => self.at_new_tick(),
            _ => at,
        }
    }
}
