// The calls that are made of lookups: the question and bat-time. None of them asks anything of what it is handed.
#![tactic(auto)]

mod reading;

pub use reading::{bat_time, query, question};
