// A head made of lent numbers.
ghost use Rattle.std.specs.Prelude.{◌≡◌, ◌+◌, ◌≤◌, length};
ghost use Rattle.c_heads.specs.Heads.{numbers_of_pass, head_numbers, use_at, pass_at, head_of};

use store::{Head, OpenPass};
use tree::TreeUse;

// What a tree uses, in the two numbers from a place on.
fn read_use(numbers: &[u32], at: usize) -> TreeUse
    requires { at + 2 ≤ length numbers.now }
    ensures { result ≡ use_at numbers.now at }
{
    TreeUse {
        pages: numbers[at],
        roots: numbers[at + 1],
    }
}

// The pass in the four numbers from a place on.
fn read_pass(numbers: &[u32], at: usize) -> OpenPass
    requires { at + numbers_of_pass ≤ length numbers.now }
    ensures { result ≡ pass_at numbers.now at }
{
    OpenPass {
        number: numbers[at],
        key: numbers[at + 1],
        weight: numbers[at + 2],
        start: numbers[at + 3],
    }
}

// A head before anything is read into it.
pub const UNREAD: Head = Head {
    last: 0,
    started: 0,
    count: 0,
    passes: [OpenPass {
        number: 0,
        key: 0,
        weight: 0,
        start: 0,
    }; Head::PLACES],
    starts: TreeUse { pages: 0, roots: 0 },
    ends: TreeUse { pages: 0, roots: 0 },
    time: TreeUse { pages: 0, roots: 0 },
};

// Reads the head that the numbers make into a place of the caller's, whatever it held. A call that only looks at a head has one of it on the stack so: of a head that is
// handed back and then pointed to it has two. The passes are stored one by one: made first and then handed on, all 64 would be copied.
pub fn read_head(numbers: &[u32], head: &mut Head)
    requires { length numbers.now ≡ head_numbers }
    ensures { head.new ≡ head_of numbers.now }
{
    head.last = numbers[0];
    head.started = numbers[1];
    head.count = numbers[2];
    head.starts = read_use(numbers, 3);
    head.ends = read_use(numbers, 5);
    head.time = read_use(numbers, 7);
    for (place, pass) in head.passes.iter_mut().enumerate() {
        *pass = read_pass(numbers, Head::FIELDS + OpenPass::NUMBERS * place);
    }
}

// The head that the numbers make. They may be part of a longer slice, as those of `open_count` and `put_head` may: an array would ask more of a caller.
pub fn head_of(numbers: &[u32]) -> Head
    requires { length numbers.now ≡ head_numbers }
    ensures { result ≡ head_of numbers.now }
{
    let mut head = UNREAD;
    read_head(numbers, &mut head);
    head
}

// How many passes are open, for a caller that needs no more of the head.
pub fn open_count(numbers: &[u32]) -> u32
    requires { length numbers.now ≡ head_numbers }
    ensures { result ≡ (head_of numbers.now).count }
{
    numbers[2]
}
