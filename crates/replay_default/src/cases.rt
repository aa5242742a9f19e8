// One recorded chain: it is read again, and what it gives is compared.
ghost use Rattle.std.specs.Prelude.{◌≤◌, length, IfSome};

use fields::{is_reading, pass_number, take_bytes};
use limits::{BODY_BYTES, CONTENTS_WORDS, GREATEST_DEPTH};
use sources::StartUp;
use startup::read_default;

// What a field says of a text.
#[derive(Clone, Copy)]
enum Kind {
    Bytes,
    Unreadable,
    Unset,
}

// A field: what it says, and where its bytes stand in the store.
#[derive(Clone, Copy)]
struct Field {
    kind: Kind,
    start: usize,
    end: usize,
}

// The property's format, and how many bytes the line takes up to it.
fn take_format(line: &[u8]) -> Option<(u8, usize)>
    ensures { IfSome result (λ f. f.1 ≤ length line.now) }
{
    for format in 0..=u8::MAX {
        if let Some(end) = pass_number(line, b"default ", format as usize) {
            if line[end..].first() == Some(&b' ') {
                return Some((format, end));
            }
        }
    }
    None
}

// What a field without bytes says.
fn take_word(rest: &[u8]) -> Option<(usize, Kind)>
    ensures { IfSome result (λ w. w.0 ≤ length rest.now) }
{
    if rest.starts_with(b" unreadable") {
        return Some((11, Kind::Unreadable));
    }
    if rest.starts_with(b" unset") {
        return Some((6, Kind::Unset));
    }
    None
}

// How many bytes of the line a field takes, and the field, whose bytes are put into the store from `at` on.
fn take_field(rest: &[u8], store: &mut [u8], at: usize) -> Option<(usize, Field)>
    requires { at ≤ length store.old }
    ensures { IfSome result (λ f. (f.0 ≤ length rest.now) × (f.1.end ≤ length store.old)) }
{
    if let Some(taken) = take_bytes(rest, &mut store[at..]) {
        let field = Field {
            kind: Kind::Bytes,
            start: at,
            end: at + taken.size,
        };
        return Some((taken.end, field));
    }
    let (took, kind) = take_word(rest)?;
    Some((
        took,
        Field {
            kind,
            start: at,
            end: at,
        },
    ))
}

// Takes the property, the four texts and the archive, and answers what is left of the line.
fn take_chain<'a>(line: &'a [u8], store: &mut [u8], fields: &mut [Field; 6]) -> Option<&'a [u8]>
    ensures { IfSome result (λ rest. length rest.now ≤ length line.now) }
{
    let mut rest = line;
    let mut at = 0;
    for field in fields.iter_mut() {
        let (took, taken) = take_field(rest, store, at)?;
        rest = &rest[took..];
        at = taken.end;
        *field = taken;
    }
    Some(rest)
}

// The bytes of a text, unless the field has none.
fn text<'a>(store: &'a [u8], field: Field) -> Option<&'a [u8]> {
    match field.kind {
        Kind::Bytes => store.get(field.start..field.end),
        Kind::Unreadable | Kind::Unset => None,
    }
}

fn is_set(field: Field) -> bool {
    !matches!(field.kind, Kind::Unset)
}

// The chain is read again, at the Rust's depth. Every recorded one is accepted. Only a text can be unreadable, and only XENVIRONMENT unset.
fn replay_chain(format: u8, store: &[u8], fields: [Field; 6], rest: &[u8]) -> bool {
    let [property, xresources, xdefaults, xenvironment, host, archive] = fields;
    if !is_set(xresources) || !is_set(xdefaults) || !is_set(host) {
        return false;
    }
    let Some(property) = text(store, property) else {
        return false;
    };
    let Some(archive) = text(store, archive) else {
        return false;
    };
    let start = StartUp {
        format,
        property,
        xresources: text(store, xresources),
        xdefaults: text(store, xdefaults),
        is_set: is_set(xenvironment),
        xenvironment: text(store, xenvironment),
        host: text(store, host),
    };
    let mut contents = [0; CONTENTS_WORDS];
    let mut bodies = [0; BODY_BYTES];
    match read_default(start, archive, GREATEST_DEPTH, &mut contents, &mut bodies) {
        Ok(read) => is_reading(rest, read.entries, read.opens, &contents, &bodies),
        Err(_) => false,
    }
}

// Is a line, without its newline, what the call answers?
pub fn replay_case(line: &[u8]) -> bool {
    let mut store = io::large_buffer();
    let none = Field {
        kind: Kind::Unset,
        start: 0,
        end: 0,
    };
    let mut fields = [none; 6];
    let Some((format, end)) = take_format(line) else {
        return false;
    };
    match take_chain(&line[end..], &mut store, &mut fields) {
        Some(rest) => replay_chain(format, &store, fields, rest),
        None => false,
    }
}
