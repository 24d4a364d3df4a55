// The root list: which root a query starts from.
ghost use Rattle.std.specs.Prelude.{◌≡◌, true, ℕ, ◌+◌, ◌≤◌, ◌<◌, length, take, get_or};
ghost use Rattle.words.specs.Words.{root_birth};
ghost use Rattle.tree.specs.Tree.{root_for};

// How many entries are looked at together.
const BLOCK: usize = 32;

// Whether all the entries of a block are born after t. The loop looks at all of them, and adds a number up with no branch. It counts in 32 bits, the
// width of a birth, so that a processor takes four at once: baseline x86-64 compares four such numbers in one step, but has no least of them.
fn all_later(block: &[u64], t: u32) -> bool
    requires { length block.now ≡ 32 }
    ensures { result ≡ true → (i : ℕ) → i < 32 → t < root_birth (get_or block.now i 0) }
{
    let mut later: u32 = 0;
    for entry in block {
        later += u32::from(t < words::root_birth(*entry));
    }
    later as usize == BLOCK
}

// The bits that the births of all the entries of a block have in common: no birth is less. One step of a processor takes such bits of four entries
// where a comparison with a tick takes several.
fn common_bits(block: &[u64]) -> u32
    requires { length block.now ≡ 32 }
    ensures { (i : ℕ) → i < 32 → result ≤ root_birth (get_or block.now i 0) }
{
    let mut common = u32::MAX;
    for entry in block {
        common &= words::root_birth(*entry);
    }
    common
}

// Whether a walk may pass over a block: all its entries are born after t. Births close to each other differ in their last bits alone, so that the bits in
// common tell it of nearly every block; of those near t, and of the few in which a high bit changes, the count does.
fn passes_block(block: &[u64], t: u32) -> bool
    requires { length block.now ≡ 32 }
    ensures { result ≡ true → (i : ℕ) → i < 32 → t < root_birth (get_or block.now i 0) }
{
    if t < common_bits(block) {
        return true;
    }
    all_later(block, t)
}

// How many entries are left, of the first `used`, when those at the end are left out that are born after t, a block at a time. They are born after every earlier tick too,
// so that whoever looks up several ticks begins with the latest and walks the list once.
pub fn skip_later(roots: &[u64], used: usize, t: u32) -> usize
    requires { used ≤ length roots.now }
    ensures upper_bound { result ≤ used }
    ensures by_index { (u : ℕ) → u ≤ t → root_for u (take result roots.now) ≡ root_for u (take used roots.now) }
{
    let mut left = used;
    // No `for` over blocks from the end (`rchunks_exact`): it would give the blocks, and what is asked for is how many entries are left.
    while BLOCK <= left {
        if !passes_block(&roots[left - BLOCK..left], t) {
            return left;
        }
        left -= BLOCK;
    }
    left
}

// The root for tick t among the first `used` entries, one entry after the other.
fn walk_roots(roots: &[u64], used: usize, t: u32) -> Option<u32>
    requires { used ≤ length roots.now }
    ensures { result ≡ root_for t (take used roots.now) }
{
    for entry in roots[..used].iter().rev() {
        if words::root_birth(*entry) <= t {
            return Some(words::root_page(*entry));
        }
    }
    None
}

// The root for tick t among the first `used` entries: the entry in the highest place with birth at most t.
// The walk goes down from the last entry, so a query on the newest ticks stops at once. No entry is passed over unread: the list may
// be spoiled, and then its births need not rise, so that a search by halves could miss the entry.
pub fn find_root(roots: &[u64], used: usize, t: u32) -> Option<u32>
    requires { used ≤ length roots.now }
    ensures { result ≡ root_for t (take used roots.now) }
{
    walk_roots(roots, skip_later(roots, used, t), t)
}
