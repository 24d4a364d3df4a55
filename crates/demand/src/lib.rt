// Bursts of events, and demand 3 of every list of calls and bursts, as definitions and theorems: see specs/. The crate `burst` has the code.
#![tactic(auto)]
