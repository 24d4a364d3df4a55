// The open passes of the list.
ghost use Rattle.std.specs.Prelude.{◌≡◌, ◌≤◌, length};
ghost use Rattle.store.specs.Passes.{count_where};
ghost use Rattle.store.specs.Book.{is_open};
ghost use Rattle.pass_list.specs.PassList.{passes_in};

use crate::types::ListedPass;

// How many of the first passes are open.
pub fn open_count(passes: &[ListedPass], started: u32) -> u32
    requires { started ≤ length passes.now }
    ensures { result ≡ count_where is_open (passes_in passes.now started) }
{
    let open = passes[..started as usize]
        .iter()
        .filter(|pass| pass.is_open())
        .count();
    open as u32
}
