// What is asked: one of the trees, and a question or bat-time over the same operands.
use crate::random::{draw, one_in};
use pass_book::Call;
use pass_list::{Asked, Window};
use store::TreeName;

pub fn drawn_tree(random: &mut u64) -> TreeName {
    match draw(random, 3) {
        0 => TreeName::Starts,
        1 => TreeName::Ends,
        _ => TreeName::Time,
    }
}

pub fn band_call(random: &mut u64, window: Window) -> Call {
    if one_in(random, 2) {
        return Call::Ask(Asked::BatTime(window));
    }
    Call::Ask(Asked::Question(window))
}
