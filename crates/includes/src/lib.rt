// Lines and includes: `parse_data_with_base_directory` and `parse_database` of the Rust. They call each other, and the depths left fall.
#![tactic(auto)]

ghost use Rattle.std.specs.Prelude.{◌≡◌, []};
ghost use Rattle.definition.specs.Archive.{files_of};
ghost use Rattle.definition.specs.Including.{Chain, including, origin_of};
ghost use Rattle.image.specs.Running.{world, Room, run, answered};
ghost use Rattle.includes.specs.Texts.{text_events};

use archive::Archive;
use archive_find::find_include;
use byte_classes::Classes;
use image::Totals;
use limits::MOST_OPENS;
use lines::{Line, parse_line};
use parser::parse_entry;
use paths::folder_of;
use plain_lines::plain_lines;
use refusal::Refusal;

// Reads the file that an include of `name` from `folder` asks for, in the include's place. `depth` depths are left below the text.
#[cycle(include_parse_database)]
fn include<'a>(
    classes: &Classes,
    name: &'a [u8],
    folder: &'a [u8],
    archive: Archive<'_>,
    depth: u64,
    totals: Totals,
    words: &mut [u16],
    store: &mut [u8],
) -> Result<Totals, Refusal>
    requires { Room totals words.old store.old }
    ensures { (chain : Chain) → answered result words.new store.new ≡ run (files_of archive.entry.bytes.now) (world totals words.old store.old) (including depth (files_of archive.entry.bytes.now) folder.now chain name.now) }
{
    if depth == 0 {
        return Ok(totals);
    }
    let Some(member) = find_include(archive, folder, name) else {
        return Ok(totals);
    };
    let opens = totals.opens;
    if opens >= MOST_OPENS {
        return Err(Refusal::ManyOpens);
    }
    let next = Totals {
        opens: opens + 1,
        entries: totals.entries,
        used: totals.used,
    };
    let files = archive.bytes;
    let origin = (member.number + 1) as u16;
    let below = folder_of(&files[member.start..member.body]);
    parse_database(
        classes,
        &files[member.body..member.end],
        below,
        archive,
        depth - 1,
        next,
        words,
        store,
        origin,
    )
}

// Reads a text of `folder`, line by line, with `depth` depths left below it. Its lines stand in `origin`: 0 is a text of the reading, and
// else a file's place on the archive.
#[cycle(include_parse_database)]
fn parse_database<'a>(
    classes: &Classes,
    text: &'a [u8],
    folder: &'a [u8],
    archive: Archive<'_>,
    depth: u64,
    totals: Totals,
    words: &mut [u16],
    store: &mut [u8],
    origin: u16,
) -> Result<Totals, Refusal>
    requires { Room totals words.old store.old }
    ensures { (chain : Chain) → origin_of (files_of archive.entry.bytes.now) chain ≡ origin → answered result words.new store.new ≡ run (files_of archive.entry.bytes.now) (world totals words.old store.old) (text_events depth (files_of archive.entry.bytes.now) folder.now chain text.now) }
{
    let mut s = totals;
    let mut rest = text;
    // not by index: a turn takes lines of the common form, and the line behind them
    while rest.len() > 0 {
        // most lines are of the common form
        let plain = plain_lines(classes, rest, s, words, store, origin);
        let opens = s.opens;
        let taken = plain.taken;
        s = Totals {
            opens,
            entries: plain.entries,
            used: plain.used,
        };
        rest = &rest[taken..];
        if rest.len() == 0 {
            return Ok(s);
        }
        match parse_line(classes, rest) {
            Line::Skip(n) => {
                rest = &rest[n..];
            }
            Line::Include(directive) => {
                let start = directive.start;
                let name = &rest[start..start + directive.size];
                s = include(classes, name, folder, archive, depth, s, words, store)?;
                rest = &rest[directive.end..];
            }
            Line::Entry(resource) => {
                let (n, next) = parse_entry(classes, rest, resource, s, words, store, origin)?;
                s = next;
                rest = &rest[n..];
            }
        }
    }
    Ok(s)
}

// Reads a text of a reading of that depth, at depth 0 in the empty folder.
pub fn parse_text(
    classes: &Classes,
    text: &[u8],
    archive: Archive<'_>,
    depth: u64,
    totals: Totals,
    words: &mut [u16],
    store: &mut [u8],
) -> Result<Totals, Refusal>
    requires { Room totals words.old store.old }
    ensures { answered result words.new store.new ≡ run (files_of archive.entry.bytes.now) (world totals words.old store.old) (text_events depth (files_of archive.entry.bytes.now) [] [] text.now) }
{
    // a text whose lines are all of the common form needs no more
    let plain = plain_lines(classes, text, totals, words, store, 0);
    let opens = totals.opens;
    let taken = plain.taken;
    let entries = plain.entries;
    let used = plain.used;
    if taken >= text.len() {
        return Ok(Totals {
            opens,
            entries,
            used,
        });
    }
    let next = Totals {
        opens,
        entries,
        used,
    };
    parse_database(
        classes,
        &text[taken..],
        &text[..0],
        archive,
        depth,
        next,
        words,
        store,
        0,
    )
}
