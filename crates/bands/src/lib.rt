// What a tree has in a band of keys: at a tick, before one, and before each of two.
#![tactic(auto)]

mod band;
mod interval;
mod keys;

pub use band::{lookup_band, lookup_band_before, without};
pub use interval::{TwoBands, lookup_bands};
pub use keys::Band;
