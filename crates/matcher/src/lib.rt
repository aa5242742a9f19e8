// The highest row of a key against a query: the Rust's `check_match`, and `match_entry` for one entry.
#![tactic(auto)]

ghost use Rattle.std.specs.Prelude.{◌≡◌, true, ◌≤◌, length};
ghost use Rattle.definition.specs.Limits.{body_bytes};
ghost use Rattle.definition.specs.Image.{key_parts, is_key};
ghost use Rattle.definition.specs.Ranking.{rank_of};
ghost use Rattle.marks.specs.Rows.{marks_of};
ghost use Rattle.positions.specs.Parts.{positions_in};

use key::split_key;
use limits::MOST_PARTS;
use marks::{Marks, first_row, next_row, no_row, skip_loose, step};
use positions::{count_positions, mark, part_at};
use query::Names;

// The highest row of a key: for each part the best row that reaches it, position by position, and what the last part, which must meet the
// last position, gives there. Its mark is taken first: it needs no row, and what it needs is not kept over the loops, for there is little stack.
#[tactic(auto, using(crate::proofs::Walking::key_some, crate::proofs::Walking::key_few))]
pub fn match_key(key: &[u8], name: &Names, class: &Names) -> Marks
    requires { (is_key key.now ≡ true) × (length key.now ≤ body_bytes) }
    ensures { result ≡ marks_of (rank_of (key_parts key.now) (positions_in name.now class.now)) }
{
    let len = count_positions(name, class);
    let mut bounds: [u16; MOST_PARTS + 1] = [0; MOST_PARTS + 1];
    let count = split_key(key, &mut bounds);
    if len < count {
        return no_row();
    }
    let last = len - 1;
    let top = count - 1;
    let binding = key[0];
    let last_n = part_at(name, last);
    let last_c = part_at(class, last);
    let last_b = bounds[top] as usize;
    let last_e = bounds[top + 1] as usize;
    let m = mark(key, last_b, last_e, last_n, last_c);
    let blank = no_row();
    let mut rows = [blank; MOST_PARTS];
    let first = first_row();
    rows[0] = first;
    'positions: for p in 0..last {
        let n = part_at(name, p);
        let c = part_at(class, p);
        'parts: for i in (0..top).rev() {
            let b = bounds[i] as usize;
            let e = bounds[i + 1] as usize;
            let before = rows[i];
            let row = rows[i + 1];
            let r = next_row(row, before, key, b, e, n, c, p);
            rows[i + 1] = r;
        }
        let row = rows[0];
        let r = skip_loose(row, binding, p);
        rows[0] = r;
    }
    let row = rows[top];
    step(row, m, last)
}
