// What is seen of a call of a random history: its answer and its head, whether the words that are lent stayed as they were, and what the book has to be told, since it
// cannot know it.
#![tactic(auto)]

mod outcome;

pub use outcome::{Hints, Outcome, outcome_of};
