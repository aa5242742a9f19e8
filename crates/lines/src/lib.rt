// What stands at the front of a text: the Rust's `parse_database` for one line.
#![tactic(auto)]

ghost use Rattle.std.specs.Prelude.{◌≡◌, ◌<◌, length, get_or};
ghost use Rattle.definition.specs.Bytes.{hash};
ghost use Rattle.definition.specs.Text.{assigned};
ghost use Rattle.lines.specs.Places.{resource_in, line_in};

use byte_classes::Classes;
use components::parse_components;
use directives::parse_include;
use scan::starts_with;
use skips::{line_end, skip_spaces};

// An include: where its name starts, the name's length, and where the next line starts.
#[derive(Clone, Copy)]
pub struct Directive {
    pub start: usize,
    pub size: usize,
    pub end: usize,
}

// An entry: where its value's text starts, the number of its parts, the length of its key, and whether the key is the text itself.
#[derive(Clone, Copy)]
pub struct Resource {
    pub value: usize,
    pub count: usize,
    pub size: usize,
    pub verbatim: bool,
}

// What a line is. Its places are counted from the line's start.
#[derive(Clone, Copy)]
pub enum Line {
    // Passed over: where the next line starts.
    Skip(usize),
    Include(Directive),
    Entry(Resource),
}

// That a text is not empty stands in each clause, here, in `plain_lines` and in `utf8`: a caller's loop tests it, and the first byte is all that it is for.

// A line that begins with `#`.
fn parse_directive(text: &[u8]) -> Line
    requires { (0 < length text.now) × (get_or text.now 0 0 ≡ hash) }
    ensures { result ≡ line_in text.now }
{
    let end = line_end(text);
    match parse_include(&text[1..]) {
        Some(named) => Line::Include(Directive {
            start: 1 + named.start,
            size: named.size,
            end,
        }),
        None => Line::Skip(end),
    }
}

// A line that is no comment and no directive.
fn parse_resource(classes: &Classes, text: &[u8]) -> Line
    ensures { result ≡ resource_in text.now (assigned text.now) }
{
    let parts = parse_components(classes, text);
    let end = parts.end;
    if !parts.named {
        return Line::Skip(line_end(text));
    }
    let rest = skip_spaces(&text[end..]);
    if !starts_with(rest, b":") {
        return Line::Skip(line_end(text));
    }
    Line::Entry(Resource {
        value: text.len() - rest.len() + 1,
        count: parts.count,
        size: parts.size,
        verbatim: parts.verbatim,
    })
}

// The line at the front of a text.
pub fn parse_line(classes: &Classes, text: &[u8]) -> Line
    requires { 0 < length text.now }
    ensures { result ≡ line_in text.now }
{
    match text[0] {
        b'\n' => Line::Skip(1),
        b'!' => Line::Skip(line_end(text)),
        b'#' => parse_directive(text),
        _ => parse_resource(classes, text),
    }
}
