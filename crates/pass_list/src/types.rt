// A pass of the list, the book's own numbers, and what is asked of them.
ghost use Rattle.std.specs.Prelude.{◌≡◌, ◌==◌};
ghost use Rattle.words.specs.Words.{open_end};

use store::TreeName;

// A pass as the list has it. Its end is 4,294,967,295 while it is open.
#[derive(Clone, Copy, Default, PartialEq, Eq)]
pub struct ListedPass {
    pub key: u32,
    pub weight: u32,
    pub start: u32,
    pub end: u32,
}

impl ListedPass {
    pub fn is_open(self) -> bool
        ensures { result ≡ self.end == open_end }
    {
        self.end == words::OPEN
    }
}

// The last tick, and how many passes started; the passes themselves are in the lent list.
#[derive(Clone, Copy)]
pub struct PassBook {
    pub last: u32,
    pub started: u32,
}

// Keys from k1 up to but not k2, and ticks from t1 up to but not t2.
#[derive(Clone, Copy)]
pub struct Window {
    pub k1: u32,
    pub k2: u32,
    pub t1: u32,
    pub t2: u32,
}

// The calls that only read, and so are answered with numbers of the passes or refused.
#[derive(Clone, Copy)]
pub enum Asked {
    Question(Window),
    BatTime(Window),
    Lookup { tree: TreeName, t: u32, k: u32 },
}
