// Document 01's shelf changed, in a copy: a file struck off.
#![tactic(auto)]

ghost use Rattle.std.specs.Prelude.{◌≡◌, ◌≤◌, ◌<◌, length};
ghost use Rattle.std.proofs.Math.Seq.{paste};
ghost use Rattle.definition.specs.Archive.{files_of, struck_off};

use archive::{Archive, LENGTHS_BYTES, lengths_at};
use archive_write::{copy_part, put_word};

// The archive without one file, copied into `out`: the number of bytes written. Those past it stay.
pub fn strike_off(archive: Archive<'_>, file: usize, out: &mut [u8]) -> usize
    requires { (file < length (files_of archive.bytes.now)) × (length (struck_off file archive.bytes.now) ≤ length out.old) }
    ensures { (result ≡ length (struck_off file archive.entry.bytes.now)) × (out.new ≡ paste out.old 0 (struck_off file archive.entry.bytes.now) result) }
{
    let bytes = archive.bytes;
    let count = archive.count();
    let row = lengths_at(file);
    let next = row + LENGTHS_BYTES;
    let member = archive.member(file);
    let at = member.start;
    let rest = member.end;
    put_word(count - 1, out, 0);
    copy_part(bytes, 2, row, out, 2);
    // the lengths of the later files, and then the earlier files themselves
    copy_part(bytes, next, at, out, row);
    copy_part(bytes, rest, bytes.len(), out, at - LENGTHS_BYTES);
    bytes.len() - LENGTHS_BYTES - (rest - at)
}
