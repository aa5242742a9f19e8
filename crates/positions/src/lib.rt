// What name and class have at a position of a query, and how a key's part matches there: the Rust's `compare_matches` for one pair.
#![tactic(auto)]

ghost use Rattle.std.specs.Prelude.{◌≡◌, ◌+◌, ◌-◌, ◌≤◌, ◌<◌, max, length, if◌then◌else◌};
ghost use Rattle.definition.specs.Lists.{same};
ghost use Rattle.definition.specs.Matching.{mark_at};
ghost use Rattle.key.specs.Keys.{part_between};
ghost use Rattle.positions.specs.Parts.{part_at, position_of, mark_byte};

use query::Names;

// By hand: with `==` a lookup took two of a hundred instructions more, and its search 176 bytes more of the stack.
fn same_text(a: &[u8], b: &[u8]) -> bool
    ensures { result ≡ same a.now b.now }
{
    if a.len() != b.len() {
        return false;
    }
    for i in 0..a.len() {
        if a[i] != b[i] {
            return false;
        }
    }
    true
}

// The bytes of the part at `i`. Where there is none they are none: no part of a key is empty, so the empty slice equals nothing.
pub fn part_at<'t>(names: &Names<'t, '_>, i: usize) -> &'t [u8]
    ensures { result.now ≡ part_at names.now.text.now names.now.starts.now names.now.lengths.now i }
{
    let starts = names.starts;
    let lengths = names.lengths;
    if i < starts.len() {
        let start = starts[i] as usize;
        let end = start + lengths[i] as usize;
        return &names.text[start..end];
    }
    &names.text[..0]
}

// The part at the last of `len` positions.
pub fn last_part<'t>(names: &Names<'t, '_>, len: usize) -> &'t [u8]
    ensures { result.now ≡ part_at names.now.text.now names.now.starts.now names.now.lengths.now (len - 1) }
{
    part_at(names, len.saturating_sub(1))
}

// How many positions a query has.
pub fn count_positions(name: &Names, class: &Names) -> usize
    ensures { result ≡ max (length name.now.starts.now) (length class.now.starts.now) }
{
    name.starts.len().max(class.starts.len())
}

fn mark_of(loose: bool, a: u8, b: u8) -> u8
    ensures { result ≡ (if loose then a else b) }
{
    if loose { a } else { b }
}

// The mark of the key's part from `b` up to `e` at a position where name and class have those parts; 0 if it does not match there.
pub fn mark(key: &[u8], b: usize, e: usize, n: &[u8], c: &[u8]) -> u8
    requires { (b + 1 < e) × (e ≤ length key.now) }
    ensures { result ≡ mark_byte (mark_at (part_between key.now b e) (position_of n.now c.now)) }
{
    let loose = key[b] == b'*';
    let s = b + 1;
    if key[s] == b'?' {
        return mark_of(loose, 1, 2);
    }
    let component = &key[s..e];
    if same_text(component, n) {
        return mark_of(loose, 5, 6);
    }
    if same_text(component, c) {
        return mark_of(loose, 3, 4);
    }
    0
}
