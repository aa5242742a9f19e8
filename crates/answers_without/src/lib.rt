// What getres tells of a query with a file on the archive (document 01's shelf) and with it struck off.
#![tactic(auto)]

ghost use Rattle.std.specs.Prelude.{map, ◌≤◌, length};
ghost use Rattle.definition.specs.Archive.{files_of, file_number};
ghost use Rattle.reports.specs.Telling.{Reports, report_bytes, argument_bytes};
ghost use Rattle.answers_without.specs.Twice.{twice_told};
ghost use Rattle.printing.specs.Putting.{left};

use archive::Archive;
use archive_find::number_of;
use compare::compare_without;
use limits::{ARCHIVE_BYTES, BODY_BYTES, CONTENTS_WORDS};
use printing::Lines;
use reports::{Report, no_file, refuse, tell_both};
use showing::value_of;

// Both answers, with file `number` and without it.
fn compare_file(
    texts: &[&[u8]],
    archive: &[u8],
    depth: u64,
    number: usize,
    file: &[u8],
    name: &[u8],
    class: &[u8],
    out: &mut Lines,
) -> Report
    requires { (length file.now ≤ argument_bytes) × (report_bytes ≤ length (left out.old)) }
    ensures { Reports (twice_told depth (map (λ x. x.now) texts.now) archive.now number file.now name.now class.now) out.old out.new result }
{
    let mut struck = [0; ARCHIVE_BYTES];
    let mut contents = [0; CONTENTS_WORDS];
    let mut bodies = [0; BODY_BYTES];
    let mut words = [0; CONTENTS_WORDS];
    let mut store = [0; BODY_BYTES];
    let compared = compare_without(
        texts,
        archive,
        depth,
        number,
        name,
        class,
        &mut struck,
        &mut contents,
        &mut bodies,
        &mut words,
        &mut store,
    );
    match compared {
        Ok(found) => match found {
            Some(both) => {
                let a = value_of(Ok(both.with_it), &bodies);
                let b = value_of(both.without, &store);
                tell_both(file, a, b, out)
            }
            None => no_file(file, out),
        },
        Err(refusal) => refuse(refusal, out),
    }
}

// Both answers, with the file of that name and without it, and whether they differ.
pub fn answer_twice(
    texts: &[&[u8]],
    archive: Archive<'_>,
    depth: u64,
    file: &[u8],
    name: &[u8],
    class: &[u8],
    out: &mut Lines,
) -> Report
    requires { (length file.now ≤ argument_bytes) × (report_bytes ≤ length (left out.old)) }
    ensures { Reports (twice_told depth (map (λ x. x.now) texts.now) archive.entry.bytes.now (file_number file.now (files_of archive.entry.bytes.now)) file.now name.now class.now) out.old out.new result }
{
    let number = number_of(archive, file);
    compare_file(texts, archive.bytes, depth, number, file, name, class, out)
}
