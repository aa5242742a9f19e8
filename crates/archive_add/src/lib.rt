// Document 01's shelf changed, in a copy: a file added.
#![tactic(auto)]

ghost use Rattle.std.specs.Prelude.{◌≡◌, ◌+◌, ◌≤◌, length};
ghost use Rattle.std.proofs.Math.Seq.{paste};
ghost use Rattle.definition.specs.Limits.{archive_bytes};
ghost use Rattle.archive_slot.specs.Slots.{place_for};
ghost use Rattle.archive_add.specs.Adding.{file_of, archive_with, addition_of, adding};

use archive::{Archive, LENGTHS_BYTES, lengths_at};
use archive_slot::{Slot, slot_for};
use archive_write::{copy_part, put_lengths, put_word};
use copies::copy_in;
use file_names::is_file_name;
use limits::{ARCHIVE_BYTES, ARCHIVE_FILES};

// Why there is no archive with one file more. It is too large if it passes an archive's limit or the bytes lent for it.
#[derive(Clone, Copy, Debug, PartialEq, Eq)]
pub enum AddError {
    NotAName,
    Again,
    TooMany,
    TooLarge,
}

// Puts the archive with one file more at the start of `out`.
fn insert(archive: Archive<'_>, slot: Slot, name: &[u8], body: &[u8], out: &mut [u8])
    requires { (slot ≡ place_for name.now archive.bytes.now) × (length archive.bytes.now + (4 + length name.now + length body.now) ≤ archive_bytes) × (length archive.bytes.now + (4 + length name.now + length body.now) ≤ length out.old) }
    ensures { out.new ≡ paste out.old 0 (archive_with (file_of name.now body.now) archive.entry.bytes.now) (length (archive_with (file_of name.now body.now) archive.entry.bytes.now)) }
{
    let bytes = archive.bytes;
    let count = archive.count();
    let index = slot.index;
    let at = slot.at;
    let row = lengths_at(index);
    let start = at + LENGTHS_BYTES;
    let rest = start + name.len();
    let end = rest + body.len();
    put_word(count + 1, out, 0);
    copy_part(bytes, 2, row, out, 2);
    put_lengths(name.len(), body.len(), out, row);
    // the lengths of the later files, and then the earlier files themselves
    copy_part(bytes, row, at, out, row + LENGTHS_BYTES);
    copy_in(name, out, start);
    copy_in(body, out, rest);
    copy_part(bytes, at, bytes.len(), out, end);
}

// The archive with one file more, at the start of `out`: how many bytes it has, or why there is none. What is past it stays, and a refusal writes nothing.
pub fn add_file(
    archive: Archive<'_>,
    name: &[u8],
    body: &[u8],
    out: &mut [u8],
) -> Result<usize, AddError>
    ensures { addition_of result out.new ≡ adding (file_of name.now body.now) archive.entry.bytes.now out.old }
{
    if !is_file_name(name) {
        return Err(AddError::NotAName);
    }
    let Err(slot) = slot_for(archive, name) else {
        return Err(AddError::Again);
    };
    if ARCHIVE_FILES <= archive.count() {
        return Err(AddError::TooMany);
    }
    let size = archive.bytes.len() + (LENGTHS_BYTES + name.len() + body.len());
    if ARCHIVE_BYTES < size {
        return Err(AddError::TooLarge);
    }
    if out.len() < size {
        return Err(AddError::TooLarge);
    }
    insert(archive, slot, name, body, out);
    Ok(size)
}
