// Files of recorded answers: read, counted line by line, and told.
#![tactic(auto)]

ghost use Rattle.std.specs.Prelude.{◌≡◌, length, IfSome};
ghost use Rattle.io.specs.Counts.{IsPrefixLen};
ghost use Rattle.definition.specs.Lists.{zeroes};
ghost use Rattle.tally.specs.Counting.{counted};

use input::{fail, open, read_all};
use std::io::Print;
use std::num::wrapping_add_usize;

// What was seen of a file. `differs` is the number of the first line that differs. No file has so many lines that a count wraps.
#[derive(Clone, Copy, Default)]
pub struct Tally {
    pub lines: usize,
    pub equal: usize,
    pub differs: Option<usize>,
}

// The tally after one line more.
pub fn count_line(tally: Tally, equal: bool) -> Tally
    ensures { result ≡ counted tally equal }
{
    let lines = wrapping_add_usize(tally.lines, 1);
    if equal {
        return Tally {
            lines,
            equal: wrapping_add_usize(tally.equal, 1),
            ..tally
        };
    }
    Tally {
        lines,
        differs: tally.differs.or(Some(lines)),
        ..tally
    }
}

// The tally of lines, by what is asked of each, without its newline. One that does not end differs.
fn tally_lines<F: Fn(&[u8]) -> bool>(lines: &[u8], is_equal: F) -> Tally
    requires { F.IsAlwaysCallable is_equal }
{
    let mut tally = Tally::default();
    for line in lines.split_inclusive(|c| *c == b'\n') {
        tally = match line {
            [whole @ .., b'\n'] => count_line(tally, is_equal(whole)),
            _ => count_line(tally, false),
        };
    }
    tally
}

// Room for a file, empty.
fn file_buffer() -> [u8; 524288]
    ensures { (result ≡ zeroes 524288) × (524288 ≡ length result) }
{
    [0; 524288]
}

// Reads a file, or says why it cannot. A name that is not UTF-8 names no file here.
fn read_file(rt: &HostRuntime, name: &[u8], buffer: &mut [u8]) -> Option<usize>
    ensures { IfSome result (λ n. IsPrefixLen n buffer.new) }
{
    match open(rt, name) {
        Ok(mut file) => read_all(&mut file, buffer).ok(),
        Err(error) => {
            fail(rt, name, error);
            None
        }
    }
}

// The tally of a file, which is told. One that cannot be read, or not whole, differs: what fills the buffer is too long.
pub fn tally_file<F: Fn(&[u8]) -> bool>(rt: &HostRuntime, name: &[u8], is_equal: F) -> Tally
    requires { F.IsAlwaysCallable is_equal }
{
    let mut buffer = file_buffer();
    let read = read_file(rt, name, &mut buffer);
    let lines = &buffer[..read.unwrap_or(0)];
    let mut tally = tally_lines(lines, is_equal);
    if read.is_none() || lines.len() == buffer.len() {
        tally = count_line(tally, false);
    }
    write_tally(
        rt,
        name,
        tally.equal,
        tally.differs,
        b", line ",
        b" differs",
    );
    tally
}

// Writes a line: how many are equal, and what differs, a number between two words.
pub fn write_tally(
    out: &impl Print,
    name: &[u8],
    equal: usize,
    differs: Option<usize>,
    first: &[u8],
    last: &[u8],
) {
    let _ = out.write_all(name);
    let _ = out.write_all(b": ");
    let _ = out.print(equal);
    let _ = out.write_all(b" equal");
    if let Some(n) = differs {
        let _ = out.write_all(first);
        let _ = out.print(n);
        let _ = out.write_all(last);
    }
    let _ = out.write_all(b"\n");
}
