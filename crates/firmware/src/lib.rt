// The store for firmware in C: calls on a head as an array of numbers and on lent slices. C hands over each slice by itself and is given a refusal as its number, and has a name for the
// lookup of each tree.
#![tactic(auto)]

mod bat_time;
mod blocks;
mod bursts;
mod commands;
mod lookups;
mod question;
mod writing;
