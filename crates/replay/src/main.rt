// Replays the recorded answers of the Rust: the files of data/, a line each case (data/README.md).
//
// For each file it writes the name, how many lines are equal, and the first that differs, if one does. A line that is not built
// as the README says differs, and so does one that does not end.
#![tactic(auto)]

mod cases;

use cases::replay_case;
use std::num::wrapping_add_usize;
use tally::{tally_file, write_tally};

const NAMES: [&[u8]; 13] = [
    b"small.txt",
    b"named.txt",
    b"limits.txt",
    b"long.txt",
    b"keys.txt",
    b"values.txt",
    b"lines.txt",
    b"includes.txt",
    b"lookups.txt",
    b"struck.txt",
    b"readings.txt",
    b"damaged.txt",
    b"realistic.txt",
];

fn main(rt: HostRuntime) {
    let mut equal = 0;
    let mut differ = 0;
    for name in NAMES {
        let tally = tally_file(&rt, name, |line| replay_case(line));
        equal = wrapping_add_usize(equal, tally.equal);
        if tally.differs.is_some() {
            differ = wrapping_add_usize(differ, 1);
        }
    }
    let files = if differ > 0 { Some(differ) } else { None };
    write_tally(&rt, b"total", equal, files, b", files that differ: ", b"");
}
