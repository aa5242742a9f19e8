// What getres tells of a database that is written out: its text, or a refusal.
#![tactic(auto)]

ghost use Rattle.std.specs.Prelude.{◌≡◌, true, map, ◌≤◌, length};
ghost use Rattle.definition.specs.Image.{is_image};
ghost use Rattle.definition.specs.Limits.{written_bytes};
ghost use Rattle.definition.specs.Writing.{image_text};
ghost use Rattle.reports.specs.Telling.{Reports, output};
ghost use Rattle.database_text.specs.Database.{database_told};
ghost use Rattle.printing.specs.Putting.{left};

use limits::{BODY_BYTES, CONTENTS_WORDS, WRITTEN_BYTES};
use printing::Lines;
use reader::read_texts;
use reports::{Report, Status, refuse};
use writer::write;

// The text of an image. None is longer than the room that is asked for, so that 11 does not come up. The writing call takes a buffer of
// its own, from which the text is put.
fn write_image(contents: &[u16], bodies: &[u8], out: &mut Lines) -> Report
    requires { (is_image contents.now bodies.now ≡ true) × (written_bytes ≤ length (left out.old)) }
    ensures { Reports (output 0 (image_text contents.now bodies.now)) out.old out.new result }
{
    let mut text = [0; WRITTEN_BYTES];
    match write(contents, bodies, &mut text) {
        Ok(size) => {
            out.put(&text[..size]);
            Report {
                status: Status::Yes,
                wrong: false,
            }
        }
        Err(short) => refuse(short, out),
    }
}

// The text of the database that texts and their files give, or a refusal.
pub fn write_database(texts: &[&[u8]], archive: &[u8], depth: u64, out: &mut Lines) -> Report
    requires { written_bytes ≤ length (left out.old) }
    ensures { Reports (database_told depth (map (λ x. x.now) texts.now) archive.now) out.old out.new result }
{
    let mut contents = [0; CONTENTS_WORDS];
    let mut bodies = [0; BODY_BYTES];
    match read_texts(texts, archive, depth, &mut contents, &mut bodies) {
        Ok(_) => write_image(&contents, &bodies, out),
        Err(refusal) => refuse(refusal, out),
    }
}
