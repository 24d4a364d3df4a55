// What the program writes.
use observed::Counts;
use std::io;

pub fn say(rt: &impl Print, text: &[u8]) -> io::Result<()> {
    rt.write_all(text)
}

// The rest of a line, after its title.
pub fn say_counts(rt: &impl Print, counts: Counts) -> io::Result<()> {
    println!(rt;
        ": {} calls on trees of height up to {}; {} comparisons, {} differed; refused {}, with 27: {} (for the tree of time alone: {}), with 28: {}; {} answers of bat-time, above 0: {}; {} clicks, up to {} ends in one tick",
        counts.calls,
        counts.highest,
        counts.compared,
        counts.differed,
        counts.refused,
        counts.lacked_pages,
        counts.lacked_for_time,
        counts.lacked_roots,
        counts.bat_times,
        counts.some_time,
        counts.clicks,
        counts.most_ends
    )
}

// The title of a group of histories, by its number.
pub fn say_group(rt: &impl Print, number: u32) -> io::Result<()> {
    match number {
        0 => say(rt, b"histories of uniform keys"),
        1 => say(rt, b"histories of a few species' bands"),
        2 => say(rt, b"histories of one narrow band"),
        3 => say(rt, b"histories of rising keys"),
        4 => say(rt, b"histories of swarms at one tick"),
        5 => say(rt, b"histories of swarms in a few bands"),
        6 => say(rt, b"histories at a slow pace"),
        _ => say(rt, b"histories up to the last tick of all"),
    }
}
