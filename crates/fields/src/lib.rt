// The fields of a recorded line: each stands after one space. Bytes are two lower-case hexadecimal digits each, or `-` for none. Whoever
// takes a field looks for the space before it, so that a field with more in it than it should have stops the next.
#![tactic(auto)]

ghost use Rattle.std.specs.Prelude.{◌≡◌, ◌++◌, ◌<◌, ◌≤◌, length, IfSome};
ghost use Rattle.definition.specs.Image.{rows_in};
ghost use Rattle.printing.specs.Putting.{decimal};
ghost use Rattle.fields.specs.Fields.{digit_of, byte_of, Decodes, Takes, passed, bytes_end, are_rows, is_reading};

use image_judge::Image;
use limits::BODY_BYTES;
use scan::starts_with;

// A digit's number.
fn digit(c: u8) -> Option<u8>
    ensures { (result ≡ digit_of c) × IfSome result (λ d. d < 16) }
{
    match c {
        b'0'..=b'9' => Some(c - b'0'),
        b'a'..=b'f' => Some(c - b'a' + 10),
        _ => None,
    }
}

// The byte that two digits are.
fn byte(high: u8, low: u8) -> Option<u8>
    ensures { result ≡ byte_of high low }
{
    match (digit(high), digit(low)) {
        (Some(high), Some(low)) => Some(16 * high + low),
        _ => None,
    }
}

// Decodes two digits a byte, as far as they go and there is room, and answers how many bytes they are.
fn decode(text: &[u8], out: &mut [u8]) -> usize
    ensures { Decodes text.now out.old out.new result }
{
    let mut rest = text;
    for n in 0..out.len() {
        if rest.len() < 2 {
            return n;
        }
        let Some(c) = byte(rest[0], rest[1]) else {
            return n;
        };
        out[n] = c;
        rest = &rest[2..];
    }
    out.len()
}

// A field of bytes: so many, and so many bytes of the line it took, with its space.
#[derive(Clone, Copy)]
pub struct Taken {
    pub size: usize,
    pub end: usize,
}

// Decodes the next field, if it is one of bytes. Those that `out` has no room for are left in the line.
pub fn take_bytes(rest: &[u8], out: &mut [u8]) -> Option<Taken>
    ensures { Takes rest.now out.old out.new result }
{
    if !starts_with(rest, b" ") {
        return None;
    }
    let size = decode(&rest[1..], out);
    if size > 0 {
        return Some(Taken {
            size,
            end: 1 + 2 * size,
        });
    }
    if starts_with(rest, b" -") {
        return Some(Taken { size, end: 2 });
    }
    None
}

// How many bytes the next field takes, if it is these bytes.
pub fn pass_bytes(rest: &[u8], bytes: &[u8]) -> Option<usize>
    ensures { (result ≡ bytes_end bytes.now rest.now) × IfSome result (λ n. n ≤ length rest.now) }
{
    let mut out = [0; BODY_BYTES];
    let Some(field) = take_bytes(rest, &mut out) else {
        return None;
    };
    if &out[..field.size] == bytes {
        return Some(field.end);
    }
    None
}

// The same for a number in decimal, with what stands before it: a space, and perhaps a sign.
pub fn pass_number(rest: &[u8], lead: &[u8], n: usize) -> Option<usize>
    ensures { (result ≡ passed (lead.now ++ decimal n) rest.now) × IfSome result (λ k. k ≤ length rest.now) }
{
    let mut digits = [0; 20];
    let k = io::decimal(n as u64, &mut digits);
    if !starts_with(rest, lead) {
        return None;
    }
    if !starts_with(&rest[lead.len()..], &digits[..k]) {
        return None;
    }
    Some(lead.len() + k)
}

// Are the keys and values of an image the fields that are left of a line, to its end?
fn are_entries(line: &[u8], image: &Image) -> bool
    ensures { result ≡ are_rows (rows_in image.now.contents.now) image.now.bodies.now line.now }
{
    let mut rest = line;
    for i in 0..image.count() {
        let Some(key) = pass_bytes(rest, image.key(i)) else {
            return false;
        };
        rest = &rest[key..];
        let Some(value) = pass_bytes(rest, image.value(i)) else {
            return false;
        };
        rest = &rest[value..];
    }
    rest.len() == 0
}

// Is what is left of a line a reading's: its opens, its entries, and the keys and values of the image?
pub fn is_reading(
    line: &[u8],
    entries: usize,
    opens: usize,
    contents: &[u16],
    bodies: &[u8],
) -> bool
    ensures { result ≡ is_reading opens entries contents.now bodies.now line.now }
{
    let Ok(image) = Image::new(contents, bodies) else {
        return false;
    };
    let Some(first) = pass_number(line, b" ", opens) else {
        return false;
    };
    let rest = &line[first..];
    let Some(second) = pass_number(rest, b" ", entries) else {
        return false;
    };
    are_entries(&rest[second..], &image)
}
