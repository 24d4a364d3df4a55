// The register block of the radio chip, as definitions and what they come to: see specs/. The crates `registers` and `block_command` have the code.
#![tactic(auto)]

mod flags;

pub use flags::Flags;
