// A file opened, a reader read to its end; why the system refuses, told in words.
#![tactic(auto)]

ghost use Rattle.std.specs.Prelude.{◌≡◌, ◌<◌, ◌≤◌, take, length, IfOk, OnErr};
ghost use Rattle.io.specs.Counts.{IsPrefixLen};
ghost use Rattle.std.specs.Io.KnownBytes.{Consumes, IsAtEnd};

use std::fmt;
use std::fmt::Write;
use std::fs::File;
use std::io::{Error, ErrorKind, Print, Read, Result};

// Opens a file for reading. The system's library takes a path as text: one that is not UTF-8 opens nothing.
pub fn open(rt: &HostRuntime, path: &[u8]) -> Result<File> {
    match std::str::from_utf8(path) {
        Ok(path) => File::open(rt, path),
        Err(_) => Err(Error::from(ErrorKind::InvalidFilename)),
    }
}

// Reads until the end, or until `buffer` is full: a caller lends one byte more than it takes, so that what fills the buffer is too long.
// Which bytes the system gives, and in how many pieces, no contract can say: the programs' tests do. After an error nothing is known of
// the bytes of `buffer` but how many there are.
pub fn read_all<R: Read>(reader: &mut R, buffer: &mut [u8]) -> Result<usize>
    ensures in_bounds { IfOk result (λ n. IsPrefixLen n buffer.new) }
    ensures bytes { IfOk result (λ n. Consumes (R.remaining reader.old) (R.remaining reader.new) (take n buffer.new)) }
    ensures end { IfOk result (λ n. n < length buffer.new → IsAtEnd (R.remaining reader.new)) }
    ensures err { OnErr result (length buffer.new ≡ length buffer.old) }
{
    let mut n = 0;
    // not by index: a turn takes what one read gives
    while n < buffer.len() {
        let more = reader.read(&mut buffer[n..])?;
        if more == 0 {
            return Ok(n);
        }
        n += more;
    }
    Ok(n)
}

// What an error says, as far as it fits.
#[derive(Drop)]
struct Words {
    bytes: [u8; 256],
    size: usize,
    ghost fits: { size ≤ 256 },
}

impl fmt::Write for Words {
    fn write_str(&mut self, s: &str) -> fmt::Result {
        for b in s.as_bytes() {
            let at = self.size;
            if at == 256 {
                return Err(fmt::Error);
            }
            self.bytes[at] = *b;
            self.size = at + 1;
        }
        Ok(())
    }
}

// What stands before the last bracket that opens and the blank before it: there the number of a system's error follows its words.
fn before_number(text: &[u8]) -> &[u8] {
    match text.iter().rposition(|b| *b == b'(') {
        Some(i) if i > 0 => &text[..i - 1],
        _ => text,
    }
}

// Says on standard error why the system refuses what.
pub fn fail(rt: &HostRuntime, what: &[u8], error: Error) {
    let mut words = Words {
        bytes: [0; 256],
        size: 0,
    };
    let _ = write!(words, "{error}");
    let said = &words.bytes[..words.size];
    let told = match error.raw_os_error() {
        Some(_) => before_number(said),
        None => said,
    };
    let err = rt.stderr();
    let _ = err.write_all(what);
    let _ = err.write_all(b": ");
    let _ = err.write_all(told);
    let _ = err.write_all(b"\n");
}
