// The includes that find no file, told on standard error: those of the texts of a reading, and of each file that is reached from them.
#![tactic(auto)]

ghost use Rattle.std.specs.Prelude.{◌≤◌, ◌<◌, length, IfSome};
ghost use Rattle.definition.specs.Limits.{archive_bytes, file_name_bytes};

use archive::Archive;
use limits::{ARCHIVE_FILES, TEXT_BYTES};
use missing::Search;
use missing_lines::{LINE_BYTES, put_absent, put_nowhere};
use paths::folder_of;
use printing::Lines;
use std::io::Print;

// A text of a reading, and the words that say which it is.
#[derive(Clone, Copy)]
pub struct Text<'a> {
    pub place: &'a [u8],
    pub bytes: &'a [u8],
    pub ghost short: { length place.now ≤ archive_bytes },
}

// The line of an include that finds no file: none has its path, or it has none.
fn tell_include(rt: &HostRuntime, place: &[u8], name: &[u8], path: Option<&[u8]>)
    requires { (length place.now ≤ archive_bytes) × (length name.now ≤ archive_bytes) × IfSome path (λ p. length p.now ≤ file_name_bytes) }
{
    let mut buffer = [0; LINE_BYTES];
    let mut out = Lines::new(&mut buffer);
    match path {
        Some(path) => put_absent(place, name, path, &mut out),
        None => put_nowhere(place, name, &mut out),
    }
    let _ = rt.stderr().write_all(out.written());
}

// Walks through the includes of a text, unless it is one that the reading refuses.
fn walk_text(rt: &HostRuntime, text: Text<'_>, search: &mut Search<'_>) {
    let bytes = text.bytes;
    if bytes.len() <= TEXT_BYTES {
        search.walk(bytes, &bytes[..0], |name, path| {
            tell_include(rt, text.place, name, path)
        });
    }
}

// Walks through the includes of a file that is reached, in the folder of its name.
fn walk_file(rt: &HostRuntime, i: usize, search: &mut Search<'_>)
    requires { i < search.old.reached.count }
{
    let place = search.name(i);
    let body = search.body(i);
    search.walk(body, folder_of(place), |name, path| {
        tell_include(rt, place, name, path)
    });
}

// Walks through the includes of each file that is reached, in that order; those that they find are added.
fn walk_files(rt: &HostRuntime, search: &mut Search<'_>) {
    for i in 0..ARCHIVE_FILES {
        if i >= search.count() {
            return;
        }
        walk_file(rt, i, search);
    }
}

// Tells the includes of the texts of a reading, and of the files reached from them.
pub fn tell_missing(rt: &HostRuntime, texts: &[Text<'_>], archive: Archive<'_>) {
    let mut search = Search::new(archive);
    for text in texts {
        walk_text(rt, *text, &mut search);
    }
    walk_files(rt, &mut search);
}
