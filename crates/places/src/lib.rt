// Where the line of an entry stands, in words: the main text, or a file of the archive by its name. Document 02 (viii).
#![tactic(auto)]

ghost use Rattle.std.specs.Prelude.{◌≡◌};
ghost use Rattle.definition.specs.Archive.{files_of};
ghost use Rattle.places.specs.Places.{file_told};

use archive::Archive;

// Where a line of that origin stands.
pub fn place_of<'a>(archive: Archive<'a>, origin: usize) -> &'a [u8]
    ensures { result.now ≡ file_told (files_of archive.entry.bytes.now) origin }
{
    if origin == 0 {
        return b"main text";
    }
    if archive.count() < origin {
        return b"unknown file";
    }
    let member = archive.member(origin - 1);
    &archive.bytes[member.start..member.body]
}
