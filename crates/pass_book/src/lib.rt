// The pass book of document 01, run on a lent list of passes: the trials compare the store's answers with what it says. It is proved to say what the
// book of the definitions says (store/specs/Book), and shares no code with the store's calls.
#![tactic(auto)]

mod grounds;
mod turn;
mod types;

pub use turn::book_turn;
pub use types::{Call, Turn};
