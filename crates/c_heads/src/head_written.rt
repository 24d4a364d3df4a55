// A head written into lent numbers.
ghost use Rattle.std.specs.Prelude.{◌≡◌, ◌+◌, ◌≤◌, length, take};
ghost use Rattle.store.specs.Head.{open_limit};
ghost use Rattle.words.specs.Overwrite.{overwrite};
ghost use Rattle.c_heads.specs.Heads.{field_numbers, numbers_of_pass, head_numbers, numbers_of_one, numbers_of_passes, head_over};

use store::{Head, OpenPass};

// Writes a pass over the four numbers from a place on.
fn write_pass(numbers: &mut [u32], at: usize, pass: OpenPass)
    requires { at + numbers_of_pass ≤ length numbers.old }
    ensures { numbers.new ≡ overwrite numbers.old at (numbers_of_one pass) }
{
    numbers[at] = pass.number;
    numbers[at + 1] = pass.key;
    numbers[at + 2] = pass.weight;
    numbers[at + 3] = pass.start;
}

// Writes the passes of the first places over their numbers.
fn write_passes(numbers: &mut [u32], head: Head, places: usize)
    requires numbers_len { length numbers.old ≡ head_numbers }
    requires places_le_open_limit { places ≤ open_limit }
    ensures { numbers.new ≡ overwrite numbers.old field_numbers (numbers_of_passes (take places head.passes)) }
{
    for (place, pass) in head.passes[..places].iter().enumerate() {
        write_pass(numbers, Head::FIELDS + OpenPass::NUMBERS * place, *pass);
    }
}

// Writes a head into its lent numbers. Of its open passes only those of the first places are written: the caller knows which places a call may have changed, and they
// are few.
pub fn put_head(head: Head, places: usize, numbers: &mut [u32])
    requires { length numbers.old ≡ head_numbers }
    ensures { numbers.new ≡ head_over numbers.old places head }
{
    numbers[0] = head.last;
    numbers[1] = head.started;
    numbers[2] = head.count;
    let starts = head.starts;
    numbers[3] = starts.pages;
    numbers[4] = starts.roots;
    let ends = head.ends;
    numbers[5] = ends.pages;
    numbers[6] = ends.roots;
    let time = head.time;
    numbers[7] = time.pages;
    numbers[8] = time.roots;
    write_passes(numbers, head, places.min(Head::PLACES));
}
