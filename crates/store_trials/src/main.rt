// Random histories of the store against the pass book. The program writes what was compared and what differed.
#![tactic(auto)]

mod report;

use histories::group_of;
use observed::Counts;
use pass_list::ListedPass;
use random_calls::PASSES;
use report::{say, say_counts, say_group};
use std::io;
use store::TreeMemory;

// Every group of histories, with a line for each.
fn run_groups(
    rt: &impl Print,
    starts: &mut TreeMemory,
    ends: &mut TreeMemory,
    time: &mut TreeMemory,
    passes: &mut [ListedPass; PASSES],
) -> io::Result<Counts> {
    let mut all = Counts::default();
    for number in 0..8 {
        let counts = group_of(starts, ends, time, passes, number);
        say_group(rt, number)?;
        say_counts(rt, counts)?;
        all = all.plus(counts);
    }
    Ok(all)
}

// On tables of 320 pages and lists of 320 roots.
fn main(rt: HostRuntime) -> io::Result<()> {
    let mut start_table = [0u64; 83200];
    let mut start_roots = [0u64; 320];
    let mut end_table = [0u64; 83200];
    let mut end_roots = [0u64; 320];
    let mut time_table = [0u64; 83200];
    let mut time_roots = [0u64; 320];
    let mut passes = [ListedPass::default(); PASSES];
    let all = run_groups(
        &rt,
        &mut TreeMemory {
            table: &mut start_table,
            roots: &mut start_roots,
        },
        &mut TreeMemory {
            table: &mut end_table,
            roots: &mut end_roots,
        },
        &mut TreeMemory {
            table: &mut time_table,
            roots: &mut time_roots,
        },
        &mut passes,
    )?;
    say(&rt, b"all")?;
    say_counts(&rt, all)
}
