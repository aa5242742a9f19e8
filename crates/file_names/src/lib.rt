// The names of files on document 01's shelf: what one is, and which of two stands first.
#![tactic(auto)]

ghost use Rattle.std.specs.Prelude.{◌≡◌};
ghost use Rattle.definition.specs.Lists.{lower};
ghost use Rattle.definition.specs.Archive.{is_file_name};
ghost use Rattle.file_names.specs.Names.{ended, dotted, lettered, next, passes};

use byte_classes::Classes;
use limits::FILE_NAME_BYTES;

// What a name has since its last `/`.
#[derive(Clone, Copy, PartialEq, Eq)]
enum Part {
    Empty,
    Dot,
    DotDot,
    // anything else that a part may be
    Good,
    // the name has a part or a byte that it may not have
    Bad,
}

// Does a stand below b? The first difference decides, and a beginning stands below the whole.
pub fn lower(a: &[u8], b: &[u8]) -> bool
    ensures { result ≡ lower a.now b.now }
{
    a < b
}

// After a `/`, which ends a part that may stand.
fn ended(part: Part) -> Part
    ensures { result ≡ ended part }
{
    match part {
        Part::Good => Part::Empty,
        _ => Part::Bad,
    }
}

// After a `.`: three of them are a part.
fn dotted(part: Part) -> Part
    ensures { result ≡ dotted part }
{
    match part {
        Part::Empty => Part::Dot,
        Part::Dot => Part::DotDot,
        Part::DotDot | Part::Good => Part::Good,
        Part::Bad => Part::Bad,
    }
}

// After a name byte.
fn lettered(part: Part) -> Part
    ensures { result ≡ lettered part }
{
    match part {
        Part::Bad => Part::Bad,
        _ => Part::Good,
    }
}

// What one more byte makes of a part.
fn next(classes: &Classes, part: Part, c: u8) -> Part
    ensures { result ≡ next part c }
{
    if c == b'/' {
        return ended(part);
    }
    if c == b'.' {
        return dotted(part);
    }
    if classes.allowed_in_quark_name(c) {
        return lettered(part);
    }
    Part::Bad
}

// May a name end so?
fn passes(part: Part) -> bool
    ensures { result ≡ passes part }
{
    part == Part::Good
}

// One to 96 bytes, parts joined by single `/`.
pub fn is_file_name(name: &[u8]) -> bool
    ensures { result ≡ is_file_name name.now }
{
    if FILE_NAME_BYTES < name.len() {
        return false;
    }
    let classes = Classes::new();
    let mut part = Part::Empty;
    for c in name {
        part = next(&classes, part, *c);
    }
    passes(part)
}
