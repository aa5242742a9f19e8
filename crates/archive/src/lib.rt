// Document 01's shelf: the walk over its files, and whether it is laid out.
#![tactic(auto)]

ghost use Rattle.std.specs.Prelude.{◌≡◌, true, false, [], ◌+◌, ◌≤◌, ◌<◌, length, MatchResult};
ghost use Rattle.definition.specs.Limits.{archive_files};
ghost use Rattle.definition.specs.Archive.{number_at, files_of, laid_out};
ghost use Rattle.laws.proofs.Walked.{fits};
ghost use Rattle.archive.specs.Walk.{lengths_at, name_start, member_at, rising_from};

use file_names::{is_file_name, lower};
use limits::{ARCHIVE_BYTES, ARCHIVE_FILES};
use refusal::Refusal;

// The bytes of a file's two lengths.
pub const LENGTHS_BYTES: usize = 4;

// A file as it stands in an archive: its number from 0, where its name starts, where its body starts, and where that ends.
#[derive(Clone, Copy)]
pub struct Member {
    pub number: usize,
    pub start: usize,
    pub body: usize,
    pub end: usize,
}

// The number in two bytes, low byte first.
fn word_at(archive: &[u8], i: usize) -> usize
    requires { i + 1 < length archive.now }
    ensures { (result ≡ number_at archive.now i) × (result < 65536) }
{
    usize::from(u16::from_le_bytes([archive[i], archive[i + 1]]))
}

// How many files the archive says it has.
pub fn file_count(archive: &[u8]) -> usize
    requires { 2 ≤ length archive.now }
    ensures { (result ≡ number_at archive.now 0) × (result < 65536) }
{
    word_at(archive, 0)
}

// Where the lengths of a file stand. Those of all files end where the next would stand, and there names and bodies begin.
pub fn lengths_at(number: usize) -> usize
    requires { number < 65536 }
    ensures { result ≡ lengths_at number }
{
    2 + LENGTHS_BYTES * number
}

// A step of the walk: the file of that number, whose name starts at `start`, by its two lengths. The next one's starts at its end.
pub fn member_at(archive: &[u8], number: usize, start: usize) -> Member
    requires { (number < 65536) × (lengths_at number + 4 ≤ length archive.now) × (start ≤ length archive.now) }
    ensures { result ≡ member_at archive.now number start }
{
    let lengths = lengths_at(number);
    let body = start + word_at(archive, lengths);
    let end = body + word_at(archive, lengths + 2);
    Member {
        number,
        start,
        body,
        end,
    }
}

// Do the lengths sum to the bytes that follow them, and to nothing less?
fn fits(archive: &[u8]) -> bool
    ensures { result ≡ fits archive.now }
{
    if archive.len() < 2 {
        return false;
    }
    let count = file_count(archive);
    let mut at = lengths_at(count);
    if archive.len() < at {
        return false;
    }
    for j in 0..count {
        let member = member_at(archive, j, at);
        if archive.len() < member.end {
            return false;
        }
        at = member.end;
    }
    at == archive.len()
}

// Are the names file names, each above the one before it?
fn names_rise(archive: &[u8]) -> bool
    requires { fits archive.now ≡ true }
    ensures { result ≡ rising_from [] (files_of archive.now) }
{
    let count = file_count(archive);
    let mut at = lengths_at(count);
    let mut last = &archive[..0];
    for j in 0..count {
        let member = member_at(archive, j, at);
        let name = &archive[member.start..member.body];
        if !is_file_name(name) {
            return false;
        }
        if !lower(last, name) {
            return false;
        }
        last = name;
        at = member.end;
    }
    true
}

// Is it laid out as document 01's shelf? (Otherwise a reading is refused with 3.)
pub fn is_archive(archive: &[u8]) -> bool
    ensures { result ≡ laid_out archive.now }
{
    if ARCHIVE_BYTES < archive.len() {
        return false;
    }
    if !fits(archive) {
        return false;
    }
    if ARCHIVE_FILES < file_count(archive) {
        return false;
    }
    names_rise(archive)
}

// An archive that is judged: bytes that are laid out as document 01's shelf.
#[derive(Clone, Copy)]
pub struct Archive<'a> {
    pub bytes: &'a [u8],
    ghost judged: { laid_out bytes.now ≡ true },
}

impl<'a> Archive<'a> {
    // The bytes, judged: 3.
    pub fn new(bytes: &'a [u8]) -> Result<Archive<'a>, Refusal>
        ensures { MatchResult result (λ archive. (archive.bytes.now ≡ bytes.now) × (laid_out bytes.now ≡ true)) (λ k. (k ≡ Refusal.NotAnArchive) × (laid_out bytes.now ≡ false)) }
    {
        if !is_archive(bytes) {
            return Err(Refusal::NotAnArchive);
        }
        Ok(Archive { bytes })
    }

    // How many files it has.
    pub fn count(self) -> usize
        ensures { (result ≡ length (files_of self.entry.bytes.now)) × (result ≤ archive_files) }
    {
        file_count(self.bytes)
    }

    // The file of that number, by the walk over those before it.
    pub fn member(self, file: usize) -> Member
        requires { file < length (files_of self.bytes.now) }
        ensures { result ≡ member_at self.entry.bytes.now file (name_start file self.entry.bytes.now) }
    {
        let mut at = lengths_at(self.count());
        for j in 0..file {
            at = member_at(self.bytes, j, at).end;
        }
        member_at(self.bytes, file, at)
    }
}
