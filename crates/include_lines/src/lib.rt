// The includes of a text, one after another, with nothing stored of the entries between them.
#![tactic(auto)]

ghost use Rattle.std.specs.Prelude.{◌≡◌, ◌≤◌, ◌-◌, length, drop};
ghost use Rattle.values.specs.Decoded.{rest_at};
ghost use Rattle.parser.specs.Putting.{line_after};
ghost use Rattle.include_lines.specs.Includes.{includes_of, includes_from, starting_with, naming, FirstPiece, Inside};

use byte_classes::Classes;
use escapes::parse_escape;
use lines::{Directive, Line, parse_line};
use values::skip_blanks;

// How many bytes the first piece of a value takes, a byte or an escape, unless the value ends.
fn piece_length(classes: &Classes, text: &[u8]) -> Option<usize>
    ensures { FirstPiece text.now result }
{
    match text {
        [] | [b'\n', ..] => None,
        [b'\\', rest @ ..] => Some(parse_escape(classes, rest).len),
        _ => Some(1),
    }
}

// How many bytes of a text, whose blanks are skipped, a value takes, its newline left.
fn value_length(classes: &Classes, text: &[u8]) -> usize
    ensures { result ≡ length text.now - length (rest_at text.now) }
{
    let mut i = 0;
    // not by index: a turn takes a byte or an escape
    while let Some(n) = piece_length(classes, &text[i..]) {
        i += n;
    }
    i
}

// Where the line after an entry starts, whose value's text starts at `value`.
pub fn line_after(classes: &Classes, text: &[u8], value: usize) -> usize
    requires { value ≤ length text.now }
    ensures { result ≡ line_after text.now value }
{
    let rest = skip_blanks(classes, &text[value..]);
    let taken = value_length(classes, rest);
    let passed = text.len() - rest.len() + taken;
    if passed < text.len() {
        passed + 1
    } else {
        passed
    }
}

// The first include of a text's lines from `from` on, if there is one, by its places in the text.
pub fn next_include(classes: &Classes, text: &[u8], from: usize) -> Option<Directive>
    ensures { (includes_from from text.now ≡ starting_with text.now result) × (includes_of (drop from text.now) ≡ naming text.now result) × Inside text.now from result }
{
    // a turn takes a line, however long: no iterator gives such steps, so a `for` is no plainer
    let mut at = from;
    while at < text.len() {
        let rest = &text[at..];
        match parse_line(classes, rest) {
            Line::Skip(n) => at += n,
            Line::Include(named) => {
                return Some(Directive {
                    start: at + named.start,
                    size: named.size,
                    end: at + named.end,
                });
            }
            Line::Entry(entry) => at += line_after(classes, rest, entry.value),
        }
    }
    None
}
