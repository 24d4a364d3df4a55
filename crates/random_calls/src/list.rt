// The book's list of passes in a history: 2,000 passes have a place.
ghost use Rattle.std.specs.Prelude.{◌≤◌};

use pass_list::ListedPass;

pub const PASSES: usize = 2000;

// The number of the open pass that has so many open ones before it, or the number started where there is none.
pub fn open_number(passes: &[ListedPass; PASSES], started: u32, before: u32) -> u32
    requires { started ≤ 2000 }
{
    (0..started)
        .zip(passes)
        .filter(|(_, pass)| pass.is_open())
        .nth(before as usize)
        .map_or(started, |(number, _)| number)
}
