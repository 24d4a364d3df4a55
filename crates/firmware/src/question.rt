// The question, for C.
ghost use Rattle.std.specs.Prelude.{ℕ, List, [], ◌∷◌};
ghost use Rattle.store.specs.Calls.{question};
ghost use Rattle.store.specs.Performing.{perform};
ghost use Rattle.c_answers.specs.Said.{Tells};
ghost use Rattle.firmware.specs.Exported.{Handed, handed_of, store_in};

use c_answers::tell;
use c_heads::{UNREAD, read_head};
use store::{Head, StoreView, TreeView};

// "A question": passes with a key from k1 up to but not k2 that live at a tick from t1 up to but not t2.
#[unsafe(no_mangle)]
pub extern "C" fn nimbleshale_question<'a>(
    head: &[u32; Head::NUMBERS],
    start_table: &'a [u64],
    start_roots: &'a [u64],
    end_table: &'a [u64],
    end_roots: &'a [u64],
    time_table: &'a [u64],
    time_roots: &'a [u64],
    k1: u32,
    k2: u32,
    t1: u32,
    t2: u32,
    count: &mut u64,
    sum: &mut u64,
    pages: &mut u32,
) -> u8
    ensures { let handed : Handed = handed_of head.now start_table.now start_roots.now end_table.now end_roots.now time_table.now time_roots.now in
        let before : List ℕ = count.old ∷ (sum.old ∷ (pages.old ∷ [])) in
        let after : List ℕ = count.new ∷ (sum.new ∷ (pages.new ∷ [])) in
        Tells (perform (store_in handed) (question k1 k2 t1 t2)).answer result before after }
{
    let mut own_head = UNREAD;
    read_head(head, &mut own_head);
    let store = StoreView {
        head: &own_head,
        starts: TreeView {
            table: start_table,
            roots: start_roots,
        },
        ends: TreeView {
            table: end_table,
            roots: end_roots,
        },
        time: TreeView {
            table: time_table,
            roots: time_roots,
        },
    };
    let answer = queries::question(&store, k1, k2, t1, t2);
    tell(answer, count, sum, pages)
}
