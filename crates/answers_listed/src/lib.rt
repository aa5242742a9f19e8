// What getres tells of the entries that align with a query: a line for each, none or a refusal.
#![tactic(auto)]

ghost use Rattle.std.specs.Prelude.{map, ◌≤◌, length};
ghost use Rattle.definition.specs.Archive.{files_of};
ghost use Rattle.definition.specs.Query.{query_of};
ghost use Rattle.definition.specs.Writing.{sources_of_image};
ghost use Rattle.reports.specs.Telling.{Reports};
ghost use Rattle.answers_listed.specs.Listed.{listed_bytes, query_told, list_told};
ghost use Rattle.printing.specs.Putting.{left};

use archive::Archive;
use image_judge::Image;
use limits::{BODY_BYTES, CONTENTS_WORDS, MOST_ENTRIES};
use printing::Lines;
use reader::read_texts;
use reports::{Report, Status, refuse};
use walk::walk_start;
use walk_lines::put_walk;

// Room for every list: a byte of a value is shown as four at most, and beside its key and its value a line has 122 bytes at most, of which a
// file's name has 96.
pub const LISTED_BYTES: usize = 4 * BODY_BYTES + 122 * MOST_ENTRIES;

// The entries of an image that align.
fn list_image(
    image: &Image,
    archive: Archive<'_>,
    name: &[u8],
    class: &[u8],
    out: &mut Lines,
) -> Report
    requires { listed_bytes ≤ length (left out.old) }
    ensures { Reports (query_told (files_of archive.entry.bytes.now) (query_of name.now class.now) (sources_of_image image.now.contents.now image.now.bodies.now)) out.old out.new result }
{
    match walk_start(image.contents, image.bodies, name, class) {
        Ok(count) => {
            let before = out.written().len();
            put_walk(image, archive, name, class, count as usize, out);
            if out.written().len() == before {
                out.put(b"getres: no entry\n");
                return Report {
                    status: Status::No,
                    wrong: true,
                };
            }
            Report {
                status: Status::Yes,
                wrong: false,
            }
        }
        Err(refusal) => refuse(refusal, out),
    }
}

// The entries that align with a name and a class, of the database that texts and their files give, or a refusal.
pub fn list_entries(
    texts: &[&[u8]],
    archive: &[u8],
    depth: u64,
    name: &[u8],
    class: &[u8],
    out: &mut Lines,
) -> Report
    requires { listed_bytes ≤ length (left out.old) }
    ensures { Reports (list_told depth (map (λ x. x.now) texts.now) archive.now name.now class.now) out.old out.new result }
{
    let mut contents = [0; CONTENTS_WORDS];
    let mut bodies = [0; BODY_BYTES];
    match read_texts(texts, archive, depth, &mut contents, &mut bodies) {
        Ok(_) => {
            let image = Image {
                contents: &contents,
                bodies: &bodies,
            };
            let judged = Archive { bytes: archive };
            list_image(&image, judged, name, class, out)
        }
        Err(refusal) => refuse(refusal, out),
    }
}
