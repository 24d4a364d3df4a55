// What the book takes and gives.
use pass_list::{Asked, PassBook};
use store::Answer;

#[derive(Clone, Copy)]
pub enum Call {
    Open,
    Start { tick: u32, key: u32, weight: u32 },
    End { tick: u32, number: u32 },
    Ask(Asked),
}

// What the book says to a call, with no page opened, and what it holds afterwards.
#[derive(Clone, Copy)]
pub struct Turn {
    pub answer: Answer,
    pub book: PassBook,
}
