// Whether a key may match a query at all, told from its end.
#![tactic(auto)]

ghost use Rattle.std.specs.Prelude.{◌≡◌};
ghost use Rattle.key_end.specs.Ends.{ends_in, may_match};

use key_judge::is_binding;

// Does the key end in a binding and the name, from the last byte on?
fn ends_in(key: &[u8], name: &[u8]) -> bool
    ensures { result ≡ ends_in key.now name.now }
{
    let n = name.len();
    if key.len() <= n {
        return false;
    }
    let at = key.len() - n;
    // By hand: `strip_suffix` is proved to do, but takes 25 instructions more an entry: 12,500 to the 111,000 of a lookup in 512 entries.
    for i in (0..n).rev() {
        if key[at + i] != name[i] {
            return false;
        }
    }
    is_binding(key[at - 1])
}

// May the key match, where name and class end in those parts? Its last part is a name and must meet the last position. This refuses most keys
// before they are split.
pub fn may_match(key: &[u8], n: &[u8], c: &[u8]) -> bool
    ensures { result ≡ may_match key.now n.now c.now }
{
    if ends_in(key, n) {
        return true;
    }
    ends_in(key, c)
}
