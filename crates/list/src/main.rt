// Document 01's list program: reads a main text from standard input with an archive of no files, and writes what it was read into.
#![tactic(auto)]

ghost use Rattle.std.specs.Prelude.{◌≤◌, IfOk};

use input::{fail, read_all};
use listing::{list, refuse_long};
use printing::Lines;
use std::io::{Print, Result};

// Reads one byte further where the text fills its buffer: whether there is one tells a text that is too long.
fn read_further(rt: &HostRuntime, filled: bool) -> Result<usize>
    ensures { IfOk result (λ n. n ≤ 1) }
{
    let mut further = [0; 1];
    if !filled {
        return Ok(0);
    }
    read_all(&mut rt.stdin(), &mut further)
}

// How many bytes the text has, of which the first stand in its buffer.
fn read_text(rt: &HostRuntime, text: &mut [u8; 32768]) -> Result<usize> {
    let n = read_all(&mut rt.stdin(), text)?;
    let further = read_further(rt, n == text.len())?;
    Ok(n + further)
}

fn write(rt: &HostRuntime, bytes: &[u8]) {
    if let Err(error) = rt.stdout().write_all(bytes) {
        fail(rt, b"standard output", error);
    }
}

fn main(rt: HostRuntime) {
    let mut text = [0; 32768];
    let size = match read_text(&rt, &mut text) {
        Ok(size) => size,
        Err(error) => {
            fail(&rt, b"standard input", error);
            return;
        }
    };
    let mut buffer = io::large_buffer();
    let mut out = Lines::new(&mut buffer);
    if size > text.len() {
        refuse_long(&mut out);
    } else {
        list(&text[..size], &mut out);
    }
    write(&rt, out.written());
}
