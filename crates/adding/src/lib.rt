// An addition: a text's only entry, put behind those of an image.
#![tactic(auto)]

ghost use Rattle.std.specs.Prelude.{◌≡◌, [], ◌∷◌, true, ◌≤◌, length, drop};
ghost use Rattle.definition.specs.Limits.{body_bytes};
ghost use Rattle.definition.specs.Text.{lines_of};
ghost use Rattle.definition.specs.Image.{count_of, is_image};
ghost use Rattle.definition.specs.Lookup.{given};
ghost use Rattle.definition.specs.Adding.{addition, entries_added, appended, added_one, adding};
ghost use Rattle.values.specs.Decoded.{decoded_at};
ghost use Rattle.components.specs.Parts.{parts_of};
ghost use Rattle.parser.specs.Putting.{entry_from};
ghost use Rattle.adding.specs.Only.{entered_by, starting_with, Standing, Counted, only_of, given_by};
ghost use Rattle.adding.specs.Appending.{refusal_of, said, Fitting, replied};

use byte_classes::Classes;
use components::write_key;
use escapes::parse_escape;
use image::{Row, write_row};
use image_judge::is_image;
use include_lines::line_after;
use limits::{BODY_BYTES, MOST_ENTRIES, MOST_PARTS, TEXT_BYTES, UNKNOWN_FILE};
use lines::{Line, Resource, parse_line};
use refusal::Refusal;
use values::{parse_value, skip_blanks};

// An entry of a text: where its line starts, what stands there, and where the line after it starts.
#[derive(Clone, Copy)]
struct Placed {
    at: usize,
    resource: Resource,
    next: usize,
}

// The first entry of a text's lines from `from` on. An include adds nothing.
#[tactic(auto, using(crate::proofs::Lines::seeking_first, crate::proofs::Lines::seeking_done, crate::proofs::Lines::seeking_skip, crate::proofs::Lines::seeking_include, crate::proofs::Lines::entry_inside))]
fn next_entry(classes: &Classes, text: &[u8], from: usize) -> Option<Placed>
    ensures { (entered_by (lines_of (drop from text.now)) ≡ starting_with text.now result) × Standing text.now result }
{
    let mut at = from;
    // lines differ in length, so the place moves on by each line's own
    while at < text.len() {
        let rest = &text[at..];
        match parse_line(classes, rest) {
            Line::Skip(n) => at += n,
            Line::Include(named) => at += named.end,
            Line::Entry(resource) => {
                let next = at + line_after(classes, rest, resource.value);
                return Some(Placed { at, resource, next });
            }
        }
    }
    None
}

// The entry of a text that is read with an empty archive, if it makes just one.
#[tactic(auto, using(crate::proofs::Lines::none_only, crate::proofs::Lines::one_only, crate::proofs::Lines::many_only))]
fn only_entry(classes: &Classes, text: &[u8]) -> Option<Placed>
    ensures { (only_of (entries_added text.now) ≡ given_by text.now result) × Standing text.now result }
{
    let first = next_entry(classes, text, 0)?;
    match next_entry(classes, text, first.next) {
        None => Some(first),
        Some(_) => None,
    }
}

// How many bytes the value at the front of a text, blanks skipped, is decoded to.
fn value_size(classes: &Classes, text: &[u8]) -> usize
    ensures { result ≡ length (decoded_at text.now) }
{
    let mut size: usize = 0;
    let mut i: usize = 0;
    // escapes differ in length, so the index moves on by each piece's own
    while i < text.len() {
        let c = text[i];
        if c == b'\n' {
            return size;
        }
        if c != b'\\' {
            size += 1;
            i += 1;
            continue;
        }
        let piece = parse_escape(classes, &text[i + 1..]);
        i += piece.len;
        if piece.byte.is_some() {
            size += 1;
        }
    }
    size
}

// Is there room for an entry with a value so long, behind so many entries and bytes? 5, 6, 7.
#[tactic(auto, using(crate::proofs::Appending::many_parts, crate::proofs::Appending::many_entries, crate::proofs::Appending::many_bytes, crate::proofs::Appending::none_past))]
fn check_limits(
    resource: Resource,
    length: usize,
    entries: usize,
    used: usize,
) -> Result<(), Refusal>
    requires { used ≤ body_bytes }
    ensures { said result ≡ refusal_of resource.count resource.size length entries used }
{
    if resource.count > MOST_PARTS {
        return Err(Refusal::ManyParts);
    }
    if entries >= MOST_ENTRIES {
        return Err(Refusal::ManyEntries);
    }
    let room = BODY_BYTES - used;
    if resource.size > room {
        return Err(Refusal::FullBodies);
    }
    if length > room - resource.size {
        return Err(Refusal::FullBodies);
    }
    Ok(())
}

// Writes the entry of a line, whose value's text, blanks skipped, is `rest`: its key and value, its row, and the first two words. The line
// stands in no file that is known.
fn append(
    classes: &Classes,
    line: &[u8],
    rest: &[u8],
    verbatim: bool,
    row: Row,
    entries: usize,
    contents: &mut [u16],
    bodies: &mut [u8],
)
    requires { Fitting line.now rest.now row.key verbatim row.value entries row.start contents.old bodies.old }
    ensures { addition (given (count_of contents.old)) contents.new bodies.new ≡ appended (record { parts = parts_of line.now; value = decoded_at rest.now }) contents.old bodies.old }
{
    let used = row.start;
    let at = used + row.key;
    let end = at + row.value;
    write_key(classes, line, row.key, verbatim, bodies, used);
    parse_value(classes, rest, bodies, at);
    write_row(contents, entries, row, UNKNOWN_FILE as u16);
    contents[0] = (entries + 1) as u16;
    contents[1] = end as u16;
}

// Adds the entry of a line: 5, 6, 7.
fn add_entry(
    classes: &Classes,
    line: &[u8],
    resource: Resource,
    contents: &mut [u16],
    bodies: &mut [u8],
) -> Result<usize, Refusal>
    requires { (is_image contents.old bodies.old ≡ true) × Counted line.now resource }
    ensures { addition (replied result) contents.new bodies.new ≡ added_one (entry_from line.now resource.value ∷ []) contents.old bodies.old }
{
    let entries = contents[0] as usize;
    let used = contents[1] as usize;
    let rest = skip_blanks(classes, &line[resource.value..]);
    let length = value_size(classes, rest);
    check_limits(resource, length, entries, used)?;
    let row = Row {
        start: used,
        key: resource.size,
        value: length,
    };
    append(
        classes,
        line,
        rest,
        resource.verbatim,
        row,
        entries,
        contents,
        bodies,
    );
    Ok(entries)
}

// Adds the entry that a text makes to an image, and answers its number: 8, 2, 12, and then 5 to 7. A refusal leaves both buffers as they
// are.
#[tactic(auto, using(crate::proofs::Appending::no_image, crate::proofs::Appending::long_text, crate::proofs::Appending::not_one))]
pub fn add(contents: &mut [u16], bodies: &mut [u8], text: &[u8]) -> Result<usize, Refusal>
    ensures { addition (replied result) contents.new bodies.new ≡ adding contents.old bodies.old text.now }
{
    // `Image` lends both buffers for reading, and here they are written
    if !is_image(contents, bodies) {
        return Err(Refusal::NotAnImage);
    }
    if text.len() > TEXT_BYTES {
        return Err(Refusal::LongText);
    }
    let classes = Classes::new();
    let Some(only) = only_entry(&classes, text) else {
        return Err(Refusal::NotOneEntry);
    };
    add_entry(&classes, &text[only.at..], only.resource, contents, bodies)
}
