// Rows of marks, how they go on over a position, and which of two wins: one turn of the Rust's `check_match`, and its `compare_matches`.
#![tactic(auto)]

ghost use Rattle.std.specs.Prelude.{◌≡◌, [], ◌+◌, ◌<◌, length, get_or};
ghost use Rattle.std.proofs.Math.Option.{some, none};
ghost use Rattle.definition.specs.Matching.{mark_at};
ghost use Rattle.key.specs.Keys.{part_between};
ghost use Rattle.positions.specs.Parts.{position_of, mark_byte};
ghost use Rattle.marks.specs.Rows.{marks_of, Roomy, marked, stepped, skipped, next_of, lower_row, wins_over};

use positions::mark;

// How many marks the first of a row's three numbers has, and the first two.
const FIRST: usize = 11;

const FIRST_TWO: usize = 22;

// A row of marks, one for each position passed, if there is one. Each mark is a digit of base 7: 11 are in `high`, the next 11 in `middle`, those
// after them in `low`, where a digit 1 leads them: without a row `low` is 0. So a row of 32 marks is 12 bytes, and of two rows the numbers
// tell which is lower.
// It says itself whether there is a row: an Option of it takes 16 bytes, and the window's stack has no room for 64 more in a split key's rows.
#[derive(Clone, Copy, PartialEq, Eq, PartialOrd, Ord)]
pub struct Marks {
    pub high: u32,
    pub middle: u32,
    pub low: u32,
}

pub fn no_row() -> Marks
    ensures { result ≡ marks_of none }
{
    Marks {
        high: 0,
        middle: 0,
        low: 0,
    }
}

// The row before the first position.
pub fn first_row() -> Marks
    ensures { result ≡ marks_of (some []) }
{
    Marks {
        high: 0,
        middle: 0,
        low: 1,
    }
}

// That a row has `p` marks stands in each clause: a type for it would hold `p` too, in 16 bytes as above.

// A row with mark `m` after its `p` marks.
fn with_mark(row: Marks, m: u8, p: usize) -> Marks
    requires { Roomy p row × (m < 7) }
    ensures { result ≡ marked row m p }
{
    if p < FIRST {
        return Marks {
            high: row.high * 7 + m as u32,
            middle: row.middle,
            low: row.low,
        };
    }
    if p < FIRST_TWO {
        return Marks {
            high: row.high,
            middle: row.middle * 7 + m as u32,
            low: row.low,
        };
    }
    Marks {
        high: row.high,
        middle: row.middle,
        low: row.low * 7 + m as u32,
    }
}

// A row over position `p`, which is skipped.
pub fn skip_loose(row: Marks, binding: u8, p: usize) -> Marks
    requires { Roomy p row }
    ensures { result ≡ skipped row binding p }
{
    if 0 < row.low {
        if binding == b'*' {
            return with_mark(row, 0, p);
        }
    }
    no_row()
}

// A row over position `p`, which is matched with mark `m`, if it is not 0.
pub fn step(row: Marks, m: u8, p: usize) -> Marks
    requires { Roomy p row × (m < 7) }
    ensures { result ≡ stepped row m p }
{
    if 0 < row.low {
        if 0 < m {
            return with_mark(row, m, p);
        }
    }
    no_row()
}

// The row of the part whose binding stands at `e`, over a position: `row` skips it, or else `before`, the row of the part before, matches it.
pub fn next_row(
    row: Marks,
    before: Marks,
    key: &[u8],
    b: usize,
    e: usize,
    n: &[u8],
    c: &[u8],
    p: usize,
) -> Marks
    requires { (b + 1 < e) × (e < length key.now) × Roomy p row × Roomy p before }
    ensures { result ≡ next_of row before (get_or key.now e 0) (mark_byte (mark_at (part_between key.now b e) (position_of n.now c.now))) p }
{
    if 0 < row.low {
        if key[e] == b'*' {
            return with_mark(row, 0, p);
        }
    }
    if 0 < before.low {
        let m = mark(key, b, e, n, c);
        return step(before, m, p);
    }
    no_row()
}

// Does the row of a later entry win over the best so far? Of equals the last wins.
pub fn wins(r: Marks, best: Marks) -> bool
    ensures { result ≡ wins_over r best }
{
    0 < r.low && (best.low == 0 || best <= r)
}
