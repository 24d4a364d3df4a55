// One command run on lent slices.
#![tactic(auto)]

mod run;

pub use run::{answer_query, is_query, run_command};
