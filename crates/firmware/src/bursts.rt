// A burst of starts and ends from the ear's buffer, for C.
ghost use Rattle.std.specs.Prelude.{length};
ghost use Rattle.demand.specs.Bursts.{enter_burst};
ghost use Rattle.std.specs.Prelude.{◌≡◌};
ghost use Rattle.store.specs.Refused.{told};
ghost use Rattle.firmware.specs.Exported.{Handed, handed_of, store_in};
ghost use Rattle.firmware.specs.BurstCalls.{Lending, LeavesBurst};

use burst::enter_burst;
use c_heads::{head_of, put_head};
use store::{Head, Refusal, TreeMemory};

// The number of a refusal, 0 for none.
fn refusal_number(tested: Result<(), Refusal>) -> u8
    ensures { result ≡ told tested }
{
    match tested {
        Ok(()) => 0,
        Err(refusal) => refusal.number(),
    }
}

// Enters up to 256 events of 9 bytes, one by one in their order; two words of the result list say of each its refusal or 0 and its new pass number or 0.
// Says 31, with nothing entered and nothing written, for a longer burst, one that ends inside an event or too short a list, and else 0.
#[unsafe(no_mangle)]
pub extern "C" fn nimbleshale_burst<'a>(
    head: &mut [u32; Head::NUMBERS],
    start_table: &'a mut [u64],
    start_roots: &'a mut [u64],
    end_table: &'a mut [u64],
    end_roots: &'a mut [u64],
    time_table: &'a mut [u64],
    time_roots: &'a mut [u64],
    events: &[u8],
    results: &mut [u64],
) -> u8
    ensures { let handed : Handed = handed_of head.old start_table.old start_roots.old end_table.old end_roots.old time_table.old time_roots.old in
        let before : Lending = record { handed = handed; results = results.old } in
        let left : Handed = handed_of head.new start_table.new start_roots.new end_table.new end_roots.new time_table.new time_roots.new in
        let after : Lending = record { handed = left; results = results.new } in
        LeavesBurst (enter_burst (store_in handed) events.now (length results.old)) result before after }
{
    let reply = enter_burst(
        head_of(head),
        &mut TreeMemory {
            table: start_table,
            roots: start_roots,
        },
        &mut TreeMemory {
            table: end_table,
            roots: end_roots,
        },
        &mut TreeMemory {
            table: time_table,
            roots: time_roots,
        },
        events,
        results,
    );
    put_head(reply.head, Head::PLACES, head);
    refusal_number(reply.refused)
}
