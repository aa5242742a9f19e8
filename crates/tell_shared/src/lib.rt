// The keys that come through two of the files that the texts of a reading include, told on standard error.
#![tactic(auto)]

ghost use Rattle.std.specs.Prelude.{◌≤◌, ◌<◌, length};
ghost use Rattle.definition.specs.Image.{count_of};
ghost use Rattle.definition.specs.Limits.{file_name_bytes};

use archive::Archive;
use image_judge::Image;
use limits::{BODY_BYTES, CONTENTS_WORDS, FILE_NAME_BYTES, TEXT_BYTES};
use missing::Search;
use printing::Lines;
use reader::read;
use shared_keys::next_shared;
use shared_lines::{LINE_BYTES, put_shared};
use std::io::Print;

// A file that is read by itself: its name, and the image of its entries.
#[derive(Clone, Copy)]
struct Pack<'a> {
    name: &'a [u8],
    image: Image<'a>,
    ghost short: { length name.now ≤ file_name_bytes },
}

// ---- Entries

// The line of entry `i` of the one file and entry `j` of the other, which have one key.
fn tell_line(rt: &HostRuntime, one: &Pack<'_>, i: usize, other: &Pack<'_>, j: usize)
    requires { (i < count_of one.now.image.contents.now) × (j < count_of other.now.image.contents.now) }
{
    let mut buffer = [0; LINE_BYTES];
    let mut out = Lines::new(&mut buffer);
    put_shared(
        one.name,
        other.name,
        one.image.key(i),
        one.image.value(i),
        other.image.value(j),
        &mut out,
    );
    let _ = rt.stderr().write_all(out.written());
}

// Each entry of the other file with the key of entry `i`.
fn tell_entry(rt: &HostRuntime, one: &Pack<'_>, i: usize, other: &Pack<'_>)
    requires { i < count_of one.now.image.contents.now }
{
    let mut next = 0;
    // not by index: a turn takes the next entry with that key
    while let Some(j) = next_shared(&one.image, i, &other.image, next) {
        tell_line(rt, one, i, other, j);
        next = j + 1;
    }
}

fn tell_entries(rt: &HostRuntime, one: &Pack<'_>, other: &Pack<'_>) {
    for i in 0..one.image.count() {
        tell_entry(rt, one, i, other);
    }
}

// ---- Files

// Reads an include of that file alone, which leaves an image; none if it is refused, and then the whole reading is.
fn read_pack<'a>(
    name: &'a [u8],
    archive: &[u8],
    depth: u64,
    contents: &'a mut [u16],
    bodies: &'a mut [u8],
) -> Option<Pack<'a>>
    requires { length name.now ≤ file_name_bytes }
{
    let mut buffer = [0; FILE_NAME_BYTES + 11];
    let mut text = Lines::new(&mut buffer);
    text.put(b"#include \"");
    text.put(name);
    text.put(b"\"");
    match read(text.written(), archive, depth, contents, bodies) {
        Ok(_) => Some(Pack {
            name,
            image: Image { contents, bodies },
        }),
        Err(_) => None,
    }
}

fn tell_packs(rt: &HostRuntime, a: &[u8], b: &[u8], archive: &[u8], depth: u64)
    requires { (length a.now ≤ file_name_bytes) × (length b.now ≤ file_name_bytes) }
{
    let mut contents = [0; CONTENTS_WORDS];
    let mut bodies = [0; BODY_BYTES];
    let Some(one) = read_pack(a, archive, depth, &mut contents, &mut bodies) else {
        return;
    };
    let mut others = [0; CONTENTS_WORDS];
    let mut stores = [0; BODY_BYTES];
    let Some(other) = read_pack(b, archive, depth, &mut others, &mut stores) else {
        return;
    };
    tell_entries(rt, &one, &other);
}

// Two files by their names, of which none has more than 96 bytes.
fn tell_files(rt: &HostRuntime, a: &[u8], b: &[u8], archive: &[u8], depth: u64) {
    if a.len() <= FILE_NAME_BYTES && b.len() <= FILE_NAME_BYTES {
        tell_packs(rt, a, b, archive, depth);
    }
}

// A file and each of those that are reached after it.
fn tell_with(rt: &HostRuntime, archive: Archive<'_>, depth: u64, search: &Search<'_>, first: usize)
    requires { first < search.now.reached.count }
{
    let one = search.name(first);
    for i in first + 1..search.count() {
        tell_files(rt, one, search.name(i), archive.bytes, depth);
    }
}

// Tells the keys that two files share which the texts of a reading include, at the depth of that reading. A text that the reading refuses
// includes none.
pub fn tell_shared(rt: &HostRuntime, texts: &[&[u8]], archive: Archive<'_>, depth: u64) {
    let mut search = Search::new(archive);
    for text in texts {
        if text.len() <= TEXT_BYTES {
            search.walk(text, &text[..0], |_, _| {});
        }
    }
    for i in 0..search.count() {
        tell_with(rt, archive, depth, &search, i);
    }
}
