// The bytes that have come: read behind those that wait, and moved to the front when others before them were taken.
ghost use Rattle.std.specs.Prelude.{◌≡◌, ◌+◌, ◌≤◌, length, take, drop, IfOk};
ghost use Rattle.std.specs.Io.KnownBytes.{ReadConsumes};
ghost use Rattle.words.specs.Overwrite.{overwrite};

use std::io;
use std::io::Read;

// Reads once, behind the bytes that wait, and says how many bytes came: none where the input has ended. A read that fails leaves the bytes that wait.
pub fn read_behind<R: Read>(input: &mut R, buffer: &mut [u8], waiting: usize) -> io::Result<usize>
    requires { waiting ≤ length buffer.old }
    ensures result_in_bounds { IfOk result (λ came. waiting + came ≤ length buffer.new) }
    ensures buffer_unchanged { take waiting buffer.new ≡ take waiting buffer.old }
    ensures same_length { length buffer.new ≡ length buffer.old }
    ensures read_once { ReadConsumes (R.remaining input.old) (R.remaining input.new) result (drop waiting buffer.new) }
{
    input.read(&mut buffer[waiting..])
}

// Moves the bytes from a place on, up to where they end, to the front.
pub fn keep_rest(buffer: &mut [u8], taken: usize, end: usize)
    requires taken_le_end { taken ≤ end }
    requires end_in_bounds { end ≤ length buffer.old }
    ensures { buffer.new ≡ overwrite buffer.old 0 (drop taken (take end buffer.old)) }
{
    buffer.copy_within(taken..end, 0);
}
