// The turns of the command program: read, run, write.
#![tactic(auto)]

mod run;
mod turn;

pub use run::serve;
pub use turn::Left;
