// What the arguments of getres name, read: a text, and the files, as an archive.
#![tactic(auto)]

ghost use Rattle.std.specs.Prelude.{◌≡◌, true, take, length, IfOk, IfSome};
ghost use Rattle.definition.specs.Archive.{laid_out};
ghost use Rattle.io.specs.Counts.{IsPrefixLen};
ghost use Rattle.loading.specs.Loading.{Holds};

use archive::Archive;
use archive_add::{AddError, add_file};
use arguments::name_end;
use command_line::{argument, argument_count, next_argument};
use copies::copy_in;
use input::{open, read_all};
use limits::ARCHIVE_BYTES;
use options::Next;
use plans::Plan;
use std::env::{Env, FillError};
use std::io::{Error, Result};
use writing::{complain, fail};

// The system's numbers of what keeps an argument out of a buffer.
const EINVAL: i32 = 22;

const ENAMETOOLONG: i32 = 36;

// ---- Files

// How much was read of it, if it could be opened and read; else that is said.
fn told(rt: &HostRuntime, what: &[u8], read: Result<usize>) -> Option<usize>
    ensures { IfSome result (λ n. read ≡ Ok n) }
{
    match read {
        Ok(size) => Some(size),
        Err(error) => {
            fail(rt, what, error);
            None
        }
    }
}

// Opens a file by its path, and reads it.
fn read_file(rt: &HostRuntime, path: &[u8], buffer: &mut [u8]) -> Result<usize>
    ensures { IfOk result (λ n. IsPrefixLen n buffer.new) }
{
    let mut file = open(rt, path)?;
    read_all(&mut file, buffer)
}

// Reads a file by its path, and says what cannot be opened or read.
fn read_path(rt: &HostRuntime, path: &[u8], buffer: &mut [u8]) -> Option<usize>
    ensures { IfSome result (λ n. IsPrefixLen n buffer.new) }
{
    told(rt, path, read_file(rt, path, buffer))
}

// Reads the text that an argument names, from standard input if that is `-`.
pub fn read_text(rt: &HostRuntime, i: usize, buffer: &mut [u8]) -> Option<usize>
    ensures { IfSome result (λ n. IsPrefixLen n buffer.new) }
{
    let mut word = io::buffer();
    let path = argument(rt, i, &mut word);
    if path == b"-".as_slice() {
        told(rt, b"standard input", read_all(&mut rt.stdin(), buffer))
    } else {
        read_path(rt, path, buffer)
    }
}

// ---- The archive

// The archive of the files that arguments name.
#[derive(Drop)]
pub struct Files {
    bytes: [u8; ARCHIVE_BYTES],
    size: usize,
    ghost held: { Holds bytes size },
}

impl Files {
    // None.
    fn new() -> Files {
        Files {
            bytes: [0; ARCHIVE_BYTES],
            size: 2,
        }
    }

    pub fn archive(&self) -> Archive<'_>
        ensures { result.bytes.now ≡ take self.now.size self.now.bytes }
    {
        Archive {
            bytes: &self.bytes[..self.size],
        }
    }

    // Adds a file, or says why it cannot.
    fn add(&mut self, rt: &HostRuntime, name: &[u8], body: &[u8]) -> Option<()> {
        let mut bytes = [0; ARCHIVE_BYTES];
        match add_file(self.archive(), name, body, &mut bytes) {
            Ok(size) => {
                // what the archive has, and not the whole room
                copy_in(&bytes[..size], &mut self.bytes, 0);
                self.size = size;
                Some(())
            }
            Err(why) => {
                complain(rt, name, explained(why));
                None
            }
        }
    }
}

// Why a file cannot be added.
fn explained(why: AddError) -> &'static [u8] {
    match why {
        AddError::NotAName => {
            b"refused 3: not a file's name: 1 to 96 bytes, parts of letters, digits, _ - . joined by /"
        }
        AddError::Again => b"there are two files of this name",
        AddError::TooMany => b"refused 3: more than 64 files",
        AddError::TooLarge => b"refused 3: the files have more than 65,536 bytes",
    }
}

fn load_path(rt: &HostRuntime, name: &[u8], path: &[u8], files: &mut Files) -> Option<()> {
    let mut body = [0; ARCHIVE_BYTES];
    let n = read_path(rt, path, &mut body)?;
    files.add(rt, name, &body[..n])
}

// Why an argument is not in a buffer, as the system numbers it.
fn unfilled(why: FillError) -> Error {
    match why {
        FillError::TooLong => Error::from_raw_os_error(ENAMETOOLONG),
        FillError::NotPresent => Error::from_raw_os_error(EINVAL),
    }
}

// Loads the file of an argument, `NAME=PATH` or a path that is the name too. No name has a `=`.
fn load_file(rt: &HostRuntime, i: usize, files: &mut Files) -> Option<()> {
    let mut buffer = io::buffer();
    // one that is too long would name another file
    let n = match rt.arg(i, &mut buffer) {
        Ok(n) => n,
        Err(why) => {
            fail(rt, b"--file", unfilled(why));
            return None;
        }
    };
    let named = &buffer[..n];
    let at = name_end(named);
    if at == named.len() {
        return load_path(rt, named, named, files);
    }
    load_path(rt, &named[..at], &named[at + 1..], files)
}

// Loads the file of argument `i`, if it names one.
fn load_argument(rt: &HostRuntime, plan: Plan, i: usize, files: &mut Files) -> Option<()> {
    match plan.next {
        Next::File => load_file(rt, i, files),
        _ => Some(()),
    }
}

// Loads the files of all arguments. What cannot be loaded is said.
pub fn load_files(rt: &HostRuntime) -> Option<Files> {
    let mut files = Files::new();
    let mut plan = Plan::default();
    for i in 1..argument_count(rt) {
        load_argument(rt, plan, i, &mut files)?;
        plan = next_argument(rt, plan, i);
    }
    Some(files)
}
