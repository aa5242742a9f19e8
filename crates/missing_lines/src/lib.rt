// What getres tells of an include that finds no file: a line, in which no name can steer a terminal.
#![tactic(auto)]

ghost use Rattle.std.specs.Prelude.{◌≤◌, length};
ghost use Rattle.printing.specs.Putting.{Appends, left};
ghost use Rattle.missing_lines.specs.Lines.{include_of, absent_line, nowhere_line, Fits};

use limits::ARCHIVE_BYTES;
use printing::Lines;
use shown_bytes::put_shown;

// Room for every line: the place and the name are parts of a text or of an archive, and a byte is shown as four at most.
pub const LINE_BYTES: usize = 5 * ARCHIVE_BYTES + 1024;

// Puts where the include stands and its name, as it is written. `Fits` stays a clause: its room is used up when this returns, so no type
// that is lent can hold it.
#[tactic(auto, using(shown_bytes::proofs::Showing::shown_most))]
fn put_include(place: &[u8], name: &[u8], out: &mut Lines)
    requires { Fits place.now name.now (left out.old) }
    ensures { Appends (include_of place.now name.now) out.old out.new }
{
    out.put(b"getres: ");
    out.put(place);
    out.put(b": #include \"");
    put_shown(name, out);
    out.put(b"\" found no file: ");
}

// Puts the line of an include whose path no file has.
#[tactic(auto, using(crate::proofs::Putting::include_most, shown_bytes::proofs::Showing::shown_most))]
pub fn put_absent(place: &[u8], name: &[u8], path: &[u8], out: &mut Lines)
    requires { Fits place.now name.now (left out.old) × (length path.now ≤ 96) }
    ensures { Appends (absent_line place.now name.now path.now) out.old out.new }
{
    put_include(place, name, out);
    out.put(b"looked for \"");
    put_shown(path, out);
    out.put(b"\"\n");
}

// Puts the line of an include that has no path.
#[tactic(auto, using(crate::proofs::Putting::include_most))]
pub fn put_nowhere(place: &[u8], name: &[u8], out: &mut Lines)
    requires { Fits place.now name.now (left out.old) }
    ensures { Appends (nowhere_line place.now name.now) out.old out.new }
{
    put_include(place, name, out);
    out.put(b"it goes above the root, has an empty part, ends in . or .., or has over 96 bytes\n");
}
