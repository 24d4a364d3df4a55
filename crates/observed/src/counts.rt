// What was compared and what differed.
ghost use Rattle.std.specs.Prelude.{◌≡◌, true};

use crate::lives::Lives;
use store::Answer;

#[derive(Clone, Copy, Default)]
pub struct Counts {
    pub calls: u64,
    pub compared: u64,
    pub differed: u64,
    pub lacked_pages: u64,
    // Of these, calls whose other tree had pages enough: the tree of time alone lacked them
    pub lacked_for_time: u64,
    pub lacked_roots: u64,
    pub refused: u64,
    // Answers of bat-time, and how many of them were above 0
    pub bat_times: u64,
    pub some_time: u64,
    // Passes that ended at their own start tick, and the most ends that one tick had
    pub clicks: u64,
    pub most_ends: u64,
    // How many pages high the highest tree was at the end
    pub highest: u64,
}

// Whether two answers are the same.
pub fn same(found: Answer, wanted: Answer) -> bool
    ensures { result ≡ true → found ≡ wanted }
{
    found == wanted
}

// The number of a refusal.
pub fn refusal_of(answer: Answer) -> Option<u8> {
    match answer {
        Answer::Refused(number) => Some(number),
        _ => None,
    }
}

// The total of bat-time, and 0 of any other answer.
fn time_of(answer: Answer) -> u64 {
    if let Answer::BatTime { total, .. } = answer {
        return total;
    }
    0
}

impl Counts {
    pub fn plus(self, other: Counts) -> Counts {
        Counts {
            calls: self.calls.wrapping_add(other.calls),
            compared: self.compared.wrapping_add(other.compared),
            differed: self.differed.wrapping_add(other.differed),
            lacked_pages: self.lacked_pages.wrapping_add(other.lacked_pages),
            lacked_for_time: self.lacked_for_time.wrapping_add(other.lacked_for_time),
            lacked_roots: self.lacked_roots.wrapping_add(other.lacked_roots),
            refused: self.refused.wrapping_add(other.refused),
            bat_times: self.bat_times.wrapping_add(other.bat_times),
            some_time: self.some_time.wrapping_add(other.some_time),
            clicks: self.clicks.wrapping_add(other.clicks),
            most_ends: self.most_ends.max(other.most_ends),
            highest: self.highest.max(other.highest),
        }
    }

    // One more comparison, of which it is said whether both sides were the same.
    pub fn judged(self, same: bool) -> Counts {
        let one = Counts {
            compared: 1,
            differed: u64::from(!same),
            ..Counts::default()
        };
        self.plus(one)
    }

    // One more call, by its answer and by whether only the tree of time may have lacked pages for it.
    pub fn called(self, answer: Answer, for_time: bool) -> Counts {
        let refusal = refusal_of(answer);
        let one = Counts {
            calls: 1,
            lacked_pages: u64::from(refusal == Some(27)),
            lacked_for_time: u64::from(for_time),
            lacked_roots: u64::from(refusal == Some(28)),
            refused: u64::from(refusal.is_some()),
            bat_times: u64::from(matches!(answer, Answer::BatTime { .. })),
            some_time: u64::from(0 < time_of(answer)),
            ..Counts::default()
        };
        self.plus(one)
    }

    // At the end, with the height of the highest tree and what came about of closed lives.
    pub fn ended(self, height: u64, lives: Lives) -> Counts {
        let last = Counts {
            clicks: lives.clicks,
            most_ends: lives.most_ends,
            highest: height,
            ..Counts::default()
        };
        self.plus(last)
    }
}
