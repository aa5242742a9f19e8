// The escapes of a value: what follows a backslash.
#![tactic(auto)]

ghost use Rattle.std.specs.Prelude.{◌≡◌, ◌*◌, ◌%◌, true, [], ◌∷◌, length, take};
ghost use Rattle.definition.specs.Lists.{take_while};
ghost use Rattle.definition.specs.Bytes.{is_octal};
ghost use Rattle.definition.specs.Text.{positional};
ghost use Rattle.escapes.specs.Pieces.{piece_of, no_byte, escape_in};

use byte_classes::Classes;

// What an escape gives: a byte or none, and how many bytes of text give it, the backslash among them.
#[derive(Clone, Copy)]
pub struct Piece {
    pub byte: Option<u8>,
    pub len: usize,
}

impl Piece {
    fn of(byte: u8, len: usize) -> Piece
        ensures { result ≡ piece_of byte len }
    {
        Piece {
            byte: Some(byte),
            len,
        }
    }

    fn nothing(len: usize) -> Piece
        ensures { result ≡ no_byte len }
    {
        Piece { byte: None, len }
    }
}

// The low eight bits of x * 8, by three doublings that wrap, as document 01 names it.
fn times_eight(x: u8) -> u8
    ensures { result ≡ (x * 8) % 256 }
{
    let two = x.wrapping_add(x);
    let four = two.wrapping_add(two);
    four.wrapping_add(four)
}

// The low eight bits of the number of three octal digits, as the Rust's release build has them.
// Only the second product can wrap: it is a multiple of eight, so the last digit fits on top.
fn octal(a: u8, b: u8, c: u8) -> u8
    requires { (is_octal a ≡ true) × (is_octal b ≡ true) × (is_octal c ≡ true) }
    ensures { result ≡ positional 8 0 (a ∷ b ∷ c ∷ []) % 256 }
{
    let x = times_eight(a - b'0');
    let y = times_eight(x + (b - b'0'));
    y + (c - b'0')
}

// How many octal digits the text begins with, three at most.
fn octal_digits(classes: &Classes, text: &[u8]) -> usize
    ensures { result ≡ length (take_while is_octal (take 3 text.now)) }
{
    let first = &text[..text.len().min(3)];
    first
        .iter()
        .position(|c| !classes.is_octal_digit(*c))
        .unwrap_or(first.len())
}

// The escape whose backslash stands before `text`. A backslash that stands for itself is the whole piece: the bytes after it are plain.
pub fn parse_escape(classes: &Classes, text: &[u8]) -> Piece
    ensures { result ≡ escape_in text.now }
{
    if text.len() == 0 {
        return Piece::of(b'\\', 1);
    }
    let c = text[0];
    match c {
        b' ' | b'\t' | b'\\' => return Piece::of(c, 2),
        b'n' => return Piece::of(b'\n', 2),
        b'\n' => return Piece::nothing(2),
        _ => {}
    }
    let n = octal_digits(classes, text);
    if n == 0 {
        return Piece::of(b'\\', 1);
    }
    if n == 3 {
        return Piece::of(octal(c, text[1], text[2]), 4);
    }
    if n == text.len() || text[n] == b'\n' {
        return Piece::nothing(1 + n);
    }
    Piece::of(b'\\', 1)
}
