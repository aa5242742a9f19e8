// A key split into its parts: where each begins and ends in the key's bytes.
#![tactic(auto)]

ghost use Rattle.std.specs.Prelude.{◌≡◌, true, suc, ◌+◌, ◌≤◌, length, drop};
ghost use Rattle.definition.specs.Lists.{take_while};
ghost use Rattle.definition.specs.Limits.{most_parts, body_bytes};
ghost use Rattle.definition.specs.Image.{key_parts, is_key};
ghost use Rattle.key.specs.Keys.{not_binding, bounds_over};

use key_judge::is_binding;
use limits::MOST_PARTS;

// Where the component that starts at `at` ends: at the next binding, or at the key's end.
fn part_end(key: &[u8], at: usize) -> usize
    requires { at ≤ length key.now }
    ensures { result ≡ at + length (take_while not_binding (drop at key.now)) }
{
    for i in at..key.len() {
        if is_binding(key[i]) {
            return i;
        }
    }
    key.len()
}

// That a key is one and fits into the bodies is asked down to here and said by `image_judge::Image::key`: of the six crates that call it only `lookup`
// and `shared_keys` need that it is one, and the rest would take a type around the bytes apart.
// Part i stands from bound i, where its binding is, up to bound i + 1. The first bound, which is 0, is the caller's. A struct would be copied.
pub fn split_key(key: &[u8], bounds: &mut [u16; MOST_PARTS + 1]) -> usize
    requires { (is_key key.now ≡ true) × (length key.now ≤ body_bytes) × (length bounds.old ≡ suc most_parts) }
    ensures { (result ≡ length (key_parts key.now)) × (bounds.new ≡ bounds_over key.now bounds.old) }
{
    let mut count = 0;
    let mut at = 0;
    // not by index: a turn takes a whole part
    while at < key.len() {
        at = part_end(key, at + 1);
        count += 1;
        bounds[count] = at as u16;
    }
    count
}
