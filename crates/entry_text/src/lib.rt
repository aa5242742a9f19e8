// The text of an entry: its key, `: `, its value and a newline.
#![tactic(auto)]

ghost use Rattle.std.specs.Prelude.{◌≡◌, false, ◌+◌, ◌-◌, ◌≤◌, length};
ghost use Rattle.definition.specs.Writing.{escaped, begins_blank};
ghost use Rattle.copies.specs.Appended.{Appends};
ghost use Rattle.copies.specs.Plain.{is_plain};
ghost use Rattle.entry_text.specs.Lines.{leading_escape, bytes_of, line_of};

use copies::{copy_in, copy_plain};

// Does a space or tab begin the value?
pub fn begins_blank(value: &[u8]) -> bool
    ensures { result ≡ begins_blank value.now }
{
    if value.len() == 0 {
        return false;
    }
    let c = value[0];
    (c == b' ') | (c == b'\t')
}

// A part is short enough for a count of one byte, so that a machine may count many of its bytes at once.
const PART: usize = 224;

// How many bytes of a part are written as two.
fn escapes_of(part: &[u8]) -> u8
    requires { length part.now ≤ 255 }
    ensures { result ≡ length (bytes_of part.now) - length part.now }
{
    let mut n: u8 = 0;
    for c in part {
        n += u8::from((*c == b'\n') | (*c == b'\\'));
    }
    n
}

// How many bytes are written as two.
pub fn escapes_in(bytes: &[u8]) -> usize
    ensures { result ≡ length (bytes_of bytes.now) - length bytes.now }
{
    let mut n: usize = 0;
    for part in bytes.chunks(PART) {
        n += usize::from(escapes_of(part));
    }
    n
}

// What is written goes into the whole text at a place, and the answer is the next one: with a slice from there on each length would be added up
// by the caller, which is no plainer.

// Writes the backslash before a value, if there is one, at `at`: where the value begins.
fn write_leading_escape(value: &[u8], text: &mut [u8], at: usize) -> usize
    requires { at + length (leading_escape value.now) ≤ length text.old }
    ensures { Appends (leading_escape value.now) text.old at text.new result }
{
    if !begins_blank(value) {
        return at;
    }
    text[at] = b'\\';
    at + 1
}

// Writes a newline or a backslash at `at`, by a backslash and another byte: where they end.
fn write_escape(c: u8, text: &mut [u8], at: usize) -> usize
    requires { (is_plain c ≡ false) × (at + length (escaped c) ≤ length text.old) }
    ensures { Appends (escaped c) text.old at text.new result }
{
    text[at] = b'\\';
    text[at + 1] = if c == b'\n' { b'n' } else { b'\\' };
    at + 2
}

// Writes the bytes of a value from `at` on: where they end.
fn write_bytes(value: &[u8], text: &mut [u8], at: usize) -> usize
    requires { at + length (bytes_of value.now) ≤ length text.old }
    ensures { Appends (bytes_of value.now) text.old at text.new result }
{
    let mut end = at;
    let mut i = 0;
    // runs differ in length, so the index moves on by each run's own
    loop {
        // most bytes are plain
        let n = copy_plain(&value[i..], text, end);
        end += n;
        i += n;
        if i >= value.len() {
            return end;
        }
        end = write_escape(value[i], text, end);
        i += 1;
    }
}

// Writes an entry from `at` on: where it ends.
pub fn write_entry(key: &[u8], value: &[u8], text: &mut [u8], at: usize) -> usize
    requires { at + length (line_of key.now value.now) ≤ length text.old }
    ensures { Appends (line_of key.now value.now) text.old at text.new result }
{
    copy_in(key, text, at);
    let colon = at + key.len();
    text[colon] = b':';
    text[colon + 1] = b' ';
    let start = write_leading_escape(value, text, colon + 2);
    let end = write_bytes(value, text, start);
    text[end] = b'\n';
    end + 1
}
