// What is passed over: a line up to its newline, and bytes of one kind. The skippers of the Rust's parser.
#![tactic(auto)]

ghost use Rattle.std.specs.Prelude.{◌≡◌, ◌+◌, ◌≤◌, eqb, length, drop};
ghost use Rattle.definition.specs.Lists.{take_while, drop_while};
ghost use Rattle.definition.specs.Bytes.{is_space, not_newline};

use blocks::{BLOCK, block_has};

// Whole blocks with no newline at the front of a text: how many bytes.
fn line_blocks(text: &[u8]) -> usize
    ensures { (result ≤ length text.now) × (length (take_while not_newline text.now) ≡ result + length (take_while not_newline (drop result text.now))) }
{
    let mut i: usize = 0;
    // A turn takes a block: a range by steps of eight says no more, and hides that what is left is less than a block.
    while BLOCK <= text.len() - i {
        if block_has(text, i, b'\n', b'\n') {
            return i;
        }
        i += BLOCK;
    }
    i
}

// Where the line's newline stands, or the text ends.
pub fn line_end(text: &[u8]) -> usize
    ensures { result ≡ length (take_while not_newline text.now) }
{
    let whole = line_blocks(text);
    for i in whole..text.len() {
        if text[i] == b'\n' {
            return i;
        }
    }
    text.len()
}

// How many times `byte` stands first.
fn leading(text: &[u8], byte: u8) -> usize
    ensures { result ≡ length (take_while (eqb byte) text.now) }
{
    for (i, c) in text.iter().enumerate() {
        if *c != byte {
            return i;
        }
    }
    text.len()
}

// The text without the `byte`s at its front.
pub fn skip_byte(text: &[u8], byte: u8) -> &[u8]
    ensures { (result.now ≡ drop_while (eqb byte) text.now) × (result.ref_ptr ≡ (text.entry.ref_ptr.0, length (take_while (eqb byte) text.now) + text.entry.ref_ptr.1)) }
{
    let n = leading(text, byte);
    &text[n..]
}

pub fn skip_spaces(text: &[u8]) -> &[u8]
    ensures { (result.now ≡ drop_while is_space text.now) × (result.ref_ptr ≡ (text.entry.ref_ptr.0, length (take_while is_space text.now) + text.entry.ref_ptr.1)) }
{
    skip_byte(text, b' ')
}
