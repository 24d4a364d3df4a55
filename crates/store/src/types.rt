// What the store's calls take and give.
ghost use Rattle.std.specs.Prelude.{◌≡◌};
ghost use Rattle.store.specs.Trees.{used_by};
ghost use Rattle.store.specs.Refused.{number_of};
ghost use Rattle.store.specs.declared.types.Answer.TheVariants.{Refused};

use crate::refusal::Refusal;
use tree::TreeUse;

// The trees of a store, by name.
#[derive(Clone, Copy)]
pub enum TreeName {
    Starts,
    Ends,
    Time,
}

// A pass that has started and not ended.
#[derive(Clone, Copy, Default, PartialEq, Eq)]
pub struct OpenPass {
    pub number: u32,
    pub key: u32,
    pub weight: u32,
    pub start: u32,
}

impl OpenPass {
    // Keys are below this.
    pub const KEY_LIMIT: u32 = words::KEY_LIMIT as u32;

    // The highest weight.
    pub const HEAVIEST: u32 = 10000;

    // So many numbers make a pass.
    pub const NUMBERS: usize = 4;
}

// An open pass that was found, and its place in the head's list.
#[derive(Clone, Copy)]
pub struct FoundPass {
    pub place: usize,
    pub pass: OpenPass,
}

// The head: the last tick, the number of passes started, the open passes (the first `count` places, since nothing is allocated), and what each tree uses.
#[derive(Clone, Copy)]
pub struct Head {
    pub last: u32,
    pub started: u32,
    pub count: u32,
    pub passes: [OpenPass; Head::PLACES],
    pub starts: TreeUse,
    pub ends: TreeUse,
    pub time: TreeUse,
}

impl Head {
    // Places for open passes.
    pub const PLACES: usize = 64;

    // The numbers of a head that stand before those of the open passes: the last tick, how many passes were started and how many are open, and for each tree the pages
    // and the roots that it uses.
    pub const FIELDS: usize = 9;

    // All numbers of a head.
    pub const NUMBERS: usize = Head::FIELDS + Head::PLACES * OpenPass::NUMBERS;

    // So many passes may be open at a time.
    pub const OPEN_LIMIT: u32 = Head::PLACES as u32;

    // So many may start.
    pub const PASS_LIMIT: u32 = 1000000;

    // What a tree uses.
    pub fn used_by(&self, tree: TreeName) -> TreeUse
        ensures { result ≡ used_by self.now tree }
    {
        match tree {
            TreeName::Starts => self.starts,
            TreeName::Ends => self.ends,
            TreeName::Time => self.time,
        }
    }
}

// What a call answers. A refusal is its number here and no `Refusal`: the theorems on whole lists of calls (`Demand`), the stream, the register block and C speak of it.
#[derive(Clone, Copy, PartialEq, Eq)]
pub enum Answer {
    Refused(u8),
    Opened,
    Started(u32),
    Ended,
    Totals { count: u64, sum: u64, pages: u32 },
    BatTime { total: u64, pages: u32 },
}

// A refusal as an answer: its number, and no other field.
impl From<Refusal> for Answer {
    ghost from_gives = { λ refusal answer. answer ≡ Refused (number_of refusal) };

    fn from(refusal: Refusal) -> Answer {
        Answer::Refused(refusal.number())
    }
}
