// The lines of the entries that a walk lists: number, where the line stands, key and value, where no value can steer a terminal.
#![tactic(auto)]

ghost use Rattle.std.specs.Prelude.{◌≡◌, ◌≤◌, length};
ghost use Rattle.definition.specs.Archive.{files_of};
ghost use Rattle.definition.specs.Query.{query_of};
ghost use Rattle.definition.specs.Lookup.{given};
ghost use Rattle.definition.specs.Walking.{walk, walk_start};
ghost use Rattle.definition.specs.Writing.{sources_of_image};
ghost use Rattle.printing.specs.Putting.{Appends, left};
ghost use Rattle.walk_lines.specs.Lines.{head_of, listed_line, walk_lines};

use archive::Archive;
use image_judge::Image;
use places::place_of;
use printing::Lines;
use shown_bytes::put_shown;
use walk::step_in;

// Puts the number of entry `i` and where its line stands.
#[tactic(auto, using(crate::proofs::Lines::head_long))]
fn put_head(i: usize, place: &[u8], out: &mut Lines)
    requires { length (head_of i place.now) ≤ length (left out.old) }
    ensures { Appends (head_of i place.now) out.old out.new }
{
    out.put_number(i);
    out.put(b" ");
    out.put(place);
    out.put(b": ");
}

// Puts the line of entry `i`.
#[tactic(auto, using(crate::proofs::Lines::listed_long))]
fn put_entry(i: usize, place: &[u8], key: &[u8], value: &[u8], out: &mut Lines)
    requires { length (listed_line i place.now key.now value.now) ≤ length (left out.old) }
    ensures { Appends (listed_line i place.now key.now value.now) out.old out.new }
{
    put_head(i, place, out);
    out.put(key);
    out.put(b": ");
    put_shown(value, out);
    out.put(b"\n");
}

// Puts the lines of all entries that a walk lists, which was begun at `count` entries; files are named by the archive.
pub fn put_walk(
    image: &Image,
    archive: Archive<'_>,
    name: &[u8],
    class: &[u8],
    count: usize,
    out: &mut Lines,
)
    requires { (walk_start image.now.contents.now image.now.bodies.now name.now class.now ≡ given (walk 0 count)) × (length (walk_lines (files_of archive.bytes.now) (query_of name.now class.now) (sources_of_image image.now.contents.now image.now.bodies.now)) ≤ length (left out.old)) }
    ensures { Appends (walk_lines (files_of archive.entry.bytes.now) (query_of name.now class.now) (sources_of_image image.now.contents.now image.now.bodies.now)) out.old out.new }
{
    let mut next = 0;
    // not by index: a turn takes a step of the walk, to the next entry that aligns; none is taken past the last
    while next < count {
        match step_in(image, name, class, next, count) {
            Ok(Some(i)) => {
                let place = place_of(archive, image.origin(i));
                put_entry(i, place, image.key(i), image.value(i), out);
                next = i + 1;
            }
            Ok(None) => return,
            Err(_) => return,
        }
    }
}
