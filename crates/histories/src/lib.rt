// Random histories of the store: calls of every kind, refused ones among them, are made on the store and put to the pass book; answers, head and
// memory are compared.
#![tactic(auto)]

mod group;
mod history;

pub use group::group_of;
