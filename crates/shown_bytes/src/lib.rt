// Bytes put as a terminal may show them, so that no name can steer it.
#![tactic(auto)]

ghost use Rattle.std.specs.Prelude.{◌≡◌, ◌≤◌, length};
ghost use Rattle.printing.specs.Putting.{Appends, left};
ghost use Rattle.shown_bytes.specs.Shown.{is_shown, shown_byte, shown};

use printing::Lines;

// Is a byte shown as itself?
#[tactic(auto, unfolding(crate::specs::Shown::is_shown))]
fn is_shown(c: u8) -> bool
    ensures { result ≡ is_shown c }
{
    match c {
        b'\\' => false,
        b' '..=b'~' => true,
        _ => false,
    }
}

// Puts a byte, or its three octal digits.
#[tactic(auto, unfolding(crate::specs::Shown::shown_byte))]
fn put_byte(c: u8, out: &mut Lines)
    requires { length (shown_byte c) ≤ length (left out.old) }
    ensures { Appends (shown_byte c) out.old out.new }
{
    if is_shown(c) {
        out.put(&[c]);
    } else {
        out.put(&[b'\\', b'0' + c / 64, b'0' + c / 8 % 8, b'0' + c % 8]);
    }
}

// Puts bytes as a terminal may show them.
pub fn put_shown(bytes: &[u8], out: &mut Lines)
    requires { length (shown bytes.now) ≤ length (left out.old) }
    ensures { Appends (shown bytes.now) out.old out.new }
{
    for c in bytes {
        put_byte(*c, out);
    }
}
