// Runs of name bytes, and a word at the front of a text: common helpers of the Rust's parser.
#![tactic(auto)]

ghost use Rattle.std.specs.Prelude.{◌≡◌, length};
ghost use Rattle.definition.specs.Lists.{take_while};
ghost use Rattle.definition.specs.Bytes.{is_name};
ghost use Rattle.scan.specs.Scanned.{starts_with};

use byte_classes::Classes;

// A name byte by its ranges, the commonest bytes first.
fn allowed_in_quark_name(c: u8) -> bool
    ensures { result ≡ is_name c }
{
    if c >= b'a' {
        return c <= b'z';
    }
    if c >= b'A' {
        if c <= b'Z' {
            return true;
        }
        return c == b'_';
    }
    if c >= b'0' {
        return c <= b'9';
    }
    c == b'-'
}

// How many bytes of a name stand first, in a query or a key: making the table would cost more than it saves.
pub fn next_component(text: &[u8]) -> usize
    ensures { result ≡ length (take_while is_name text.now) }
{
    text.iter()
        .position(|c| !allowed_in_quark_name(*c))
        .unwrap_or(text.len())
}

// The same in a text that is read, by the table.
pub fn next_component_by(classes: &Classes, text: &[u8]) -> usize
    ensures { result ≡ length (take_while is_name text.now) }
{
    for (i, c) in text.iter().enumerate() {
        if !classes.allowed_in_quark_name(*c) {
            return i;
        }
    }
    text.len()
}

// Does `text` begin with `word`?
pub fn starts_with(text: &[u8], word: &[u8]) -> bool
    ensures { result ≡ starts_with word.now text.now }
{
    text.starts_with(word)
}
