// Replays the recorded start-up chains of the Rust: data/default.txt, a line each chain (crates/replay/data/README.md has the fields).
//
// It writes how many lines are equal, and the first that differs, if one does. A line that is not built as it should be differs, and
// so does one that does not end.
#![tactic(auto)]

mod cases;

use cases::replay_case;
use tally::tally_file;

fn main(rt: HostRuntime) {
    tally_file(&rt, b"default.txt", |line| replay_case(line));
}
