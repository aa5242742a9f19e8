// What getres tells of a key that two files of a text have: a line, in which no value can steer a terminal.
#![tactic(auto)]

ghost use Rattle.std.specs.Prelude.{◌≤◌, length};
ghost use Rattle.printing.specs.Putting.{Appends, left};
ghost use Rattle.shared_lines.specs.Lines.{key_of, shared_line, Fits, Room};

use limits::BODY_BYTES;
use printing::Lines;
use shown_bytes::put_shown;

// Room for every line: two names, a key, and two values, of which a byte is shown as four at most.
pub const LINE_BYTES: usize = 9 * BODY_BYTES + 1024;

// Puts both files' names and the key.
fn put_key(a: &[u8], b: &[u8], key: &[u8], out: &mut Lines)
    requires { Fits a.now b.now key.now × Room (left out.old) }
    ensures { Appends (key_of a.now b.now key.now) out.old out.new }
{
    out.put(b"getres: ");
    out.put(a);
    out.put(b" and ");
    out.put(b);
    out.put(b" share ");
    out.put(key);
}

// Puts the line of a key that two files have, with a value of each.
#[tactic(auto, using(crate::proofs::Putting::key_long, shown_bytes::proofs::Showing::shown_most))]
pub fn put_shared(a: &[u8], b: &[u8], key: &[u8], one: &[u8], other: &[u8], out: &mut Lines)
    requires { Fits a.now b.now key.now × (length one.now ≤ 32768) × (length other.now ≤ 32768) × Room (left out.old) }
    ensures { Appends (shared_line a.now b.now key.now one.now other.now) out.old out.new }
{
    put_key(a, b, key, out);
    out.put(b": \"");
    put_shown(one, out);
    out.put(b"\" and \"");
    put_shown(other, out);
    out.put(b"\"\n");
}
