// The value of an entry: the part of the Rust's `parse_entry` after the `:`.
#![tactic(auto)]

ghost use Rattle.std.specs.Prelude.{◌≡◌, ◌+◌, ◌≤◌, length};
ghost use Rattle.definition.specs.Text.{after_blanks};
ghost use Rattle.values.specs.Decoded.{blanks_at, Decoded};

use byte_classes::Classes;
use copies::copy_plain;
use escapes::parse_escape;

// Where a value ends in the store, and how many bytes of text it took, its newline left.
#[derive(Clone, Copy)]
pub struct Stored {
    pub end: usize,
    pub taken: usize,
}

// How many bytes of blanks and backslash-newline pairs stand first.
fn blanks(classes: &Classes, text: &[u8]) -> usize
    ensures { result ≡ blanks_at text.now }
{
    let mut rest = text;
    // not by index: a turn takes a blank, or a backslash and its newline
    loop {
        rest = match rest {
            [c, left @ ..] if classes.is_blank(*c) => left,
            [b'\\', b'\n', left @ ..] => left,
            _ => return text.len() - rest.len(),
        };
    }
}

// The text after a `:` without the blanks and backslash-newline pairs at its front.
pub fn skip_blanks<'a>(classes: &Classes, text: &'a [u8]) -> &'a [u8]
    ensures { (result.now ≡ after_blanks text.now) × (result.ref_ptr ≡ (text.entry.ref_ptr.0, blanks_at text.now + text.entry.ref_ptr.1)) }
{
    let n = blanks(classes, text);
    &text[n..]
}

// Decodes the value at the front of a text, blanks skipped, into the store from `at` on, as far as there is room: where it
// ends, if it fits. `at` is a number of the image's rows: a slice from there on would have it counted a second time, which is no plainer.
pub fn parse_value(classes: &Classes, text: &[u8], store: &mut [u8], at: usize) -> Option<Stored>
    requires { at ≤ length store.old }
    ensures { Decoded text.now store.old at store.new result }
{
    let mut end = at;
    // a turn takes a run and an escape, and two places go on: no iterator gives such steps, so a `for` is no plainer
    let mut i = 0;
    loop {
        // most bytes are plain: as many as stand here and have room
        let most = (text.len() - i).min(store.len() - end);
        let n = copy_plain(&text[i..i + most], store, end);
        end += n;
        i += n;
        if i >= text.len() || text[i] == b'\n' {
            return Some(Stored { end, taken: i });
        }
        if text[i] != b'\\' {
            return None;
        }
        let piece = parse_escape(classes, &text[i + 1..]);
        if let Some(byte) = piece.byte {
            if end >= store.len() {
                return None;
            }
            store[end] = byte;
            end += 1;
        }
        i += piece.len;
    }
}
