// Pieces of the command stream, run on lent slices.
#![tactic(auto)]

mod pieces;

pub use pieces::{Fed, run_piece};
