// What getres tells of a query: the value that it gets, none or a refusal.
#![tactic(auto)]

ghost use Rattle.std.specs.Prelude.{map, ◌≤◌, length};
ghost use Rattle.reports.specs.Telling.{Reports, report_bytes};
ghost use Rattle.answers.specs.Answering.{LooksUp, answer_told};
ghost use Rattle.printing.specs.Putting.{left};

use limits::{BODY_BYTES, CONTENTS_WORDS};
use lookup::{Place, get_bytes};
use printing::Lines;
use reader::read_texts;
use refusal::Refusal;
use reports::{Report, tell};
use showing::value_of;

// Reads the texts with the archive at that depth, and looks the query up in what was read.
fn look_up(
    texts: &[&[u8]],
    archive: &[u8],
    depth: u64,
    name: &[u8],
    class: &[u8],
    contents: &mut [u16],
    bodies: &mut [u8],
) -> Result<Option<Place>, Refusal>
    ensures { LooksUp depth (map (λ x. x.now) texts.now) archive.now name.now class.now contents.old bodies.old contents.new bodies.new result }
{
    let _read = read_texts(texts, archive, depth, contents, bodies)?;
    get_bytes(contents, bodies, name, class)
}

// The value that a name and a class get from texts and their files, none, or a refusal.
pub fn answer(
    texts: &[&[u8]],
    archive: &[u8],
    depth: u64,
    name: &[u8],
    class: &[u8],
    out: &mut Lines,
) -> Report
    requires { report_bytes ≤ length (left out.old) }
    ensures { Reports (answer_told depth (map (λ x. x.now) texts.now) archive.now name.now class.now) out.old out.new result }
{
    let mut contents = [0; CONTENTS_WORDS];
    let mut bodies = [0; BODY_BYTES];
    let found = look_up(
        texts,
        archive,
        depth,
        name,
        class,
        &mut contents,
        &mut bodies,
    );
    tell(value_of(found, &bodies), out)
}
