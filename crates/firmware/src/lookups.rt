// The lookup of each tree, for C.
ghost use Rattle.std.specs.Prelude.{ℕ, List, [], ◌∷◌};
ghost use Rattle.store.specs.declared.types.TreeName.TheVariants.{Starts, Ends, Time};
ghost use Rattle.store.specs.Calls.{lookup_in};
ghost use Rattle.store.specs.Performing.{perform};
ghost use Rattle.c_answers.specs.Said.{Tells};
ghost use Rattle.firmware.specs.Exported.{Handed, handed_of, store_in};

use c_answers::tell;
use c_heads::{UNREAD, read_head};
use store::{Head, StoreView, TreeView};
use tree_lookups::{lookup_ends, lookup_starts, lookup_time};

// The lookup of the tree of starts at (t, k).
#[unsafe(no_mangle)]
pub extern "C" fn nimbleshale_lookup_starts<'a>(
    head: &[u32; Head::NUMBERS],
    start_table: &'a [u64],
    start_roots: &'a [u64],
    end_table: &'a [u64],
    end_roots: &'a [u64],
    time_table: &'a [u64],
    time_roots: &'a [u64],
    t: u32,
    k: u32,
    count: &mut u64,
    sum: &mut u64,
    pages: &mut u32,
) -> u8
    ensures { let handed : Handed = handed_of head.now start_table.now start_roots.now end_table.now end_roots.now time_table.now time_roots.now in
        let before : List ℕ = count.old ∷ (sum.old ∷ (pages.old ∷ [])) in
        let after : List ℕ = count.new ∷ (sum.new ∷ (pages.new ∷ [])) in
        Tells (perform (store_in handed) (lookup_in Starts t k)).answer result before after }
{
    let mut own_head = UNREAD;
    read_head(head, &mut own_head);
    let store = StoreView {
        head: &own_head,
        starts: TreeView {
            table: start_table,
            roots: start_roots,
        },
        ends: TreeView {
            table: end_table,
            roots: end_roots,
        },
        time: TreeView {
            table: time_table,
            roots: time_roots,
        },
    };
    let answer = lookup_starts(&store, t, k);
    tell(answer, count, sum, pages)
}

// The lookup of the tree of ends at (t, k).
#[unsafe(no_mangle)]
pub extern "C" fn nimbleshale_lookup_ends<'a>(
    head: &[u32; Head::NUMBERS],
    start_table: &'a [u64],
    start_roots: &'a [u64],
    end_table: &'a [u64],
    end_roots: &'a [u64],
    time_table: &'a [u64],
    time_roots: &'a [u64],
    t: u32,
    k: u32,
    count: &mut u64,
    sum: &mut u64,
    pages: &mut u32,
) -> u8
    ensures { let handed : Handed = handed_of head.now start_table.now start_roots.now end_table.now end_roots.now time_table.now time_roots.now in
        let before : List ℕ = count.old ∷ (sum.old ∷ (pages.old ∷ [])) in
        let after : List ℕ = count.new ∷ (sum.new ∷ (pages.new ∷ [])) in
        Tells (perform (store_in handed) (lookup_in Ends t k)).answer result before after }
{
    let mut own_head = UNREAD;
    read_head(head, &mut own_head);
    let store = StoreView {
        head: &own_head,
        starts: TreeView {
            table: start_table,
            roots: start_roots,
        },
        ends: TreeView {
            table: end_table,
            roots: end_roots,
        },
        time: TreeView {
            table: time_table,
            roots: time_roots,
        },
    };
    let answer = lookup_ends(&store, t, k);
    tell(answer, count, sum, pages)
}

// The lookup of the tree of time at (t, k): the factor and the constant of a line over ticks. Its value at t, modulo 2^64, is the bat-time of the keys up to k and the ticks
// up to t.
#[unsafe(no_mangle)]
pub extern "C" fn nimbleshale_lookup_time<'a>(
    head: &[u32; Head::NUMBERS],
    start_table: &'a [u64],
    start_roots: &'a [u64],
    end_table: &'a [u64],
    end_roots: &'a [u64],
    time_table: &'a [u64],
    time_roots: &'a [u64],
    t: u32,
    k: u32,
    factor: &mut u64,
    constant: &mut u64,
    pages: &mut u32,
) -> u8
    ensures { let handed : Handed = handed_of head.now start_table.now start_roots.now end_table.now end_roots.now time_table.now time_roots.now in
        let before : List ℕ = factor.old ∷ (constant.old ∷ (pages.old ∷ [])) in
        let after : List ℕ = factor.new ∷ (constant.new ∷ (pages.new ∷ [])) in
        Tells (perform (store_in handed) (lookup_in Time t k)).answer result before after }
{
    let mut own_head = UNREAD;
    read_head(head, &mut own_head);
    let store = StoreView {
        head: &own_head,
        starts: TreeView {
            table: start_table,
            roots: start_roots,
        },
        ends: TreeView {
            table: end_table,
            roots: end_roots,
        },
        time: TreeView {
            table: time_table,
            roots: time_roots,
        },
    };
    let answer = lookup_time(&store, t, k);
    tell(answer, factor, constant, pages)
}
