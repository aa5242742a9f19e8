// Texts read with a file struck off their archive.
#![tactic(auto)]

ghost use Rattle.std.specs.Prelude.{map, ◌≤◌, ◌<◌, length};
ghost use Rattle.definition.specs.Archive.{files_of};
ghost use Rattle.reader_without.specs.Second.{SecondOf};

use archive::Archive;
use archive_edit::strike_off;
use reader::{Accepted, read_texts};
use refusal::Refusal;

// Strikes the file off (files are counted from 0) and reads. `struck` is room for the archive without the file.
pub fn read_without(
    texts: &[&[u8]],
    archive: Archive<'_>,
    depth: u64,
    file: usize,
    struck: &mut [u8],
    contents: &mut [u16],
    bodies: &mut [u8],
) -> Result<Accepted, Refusal>
    requires { (file < length (files_of archive.bytes.now)) × (length archive.bytes.now ≤ length struck.old) }
    ensures { SecondOf result depth (map (λ x. x.now) texts.now) archive.entry.bytes.now file struck.old contents.old bodies.old struck.new contents.new bodies.new }
{
    let n = strike_off(archive, file, struck);
    let without = &struck[..n];
    read_texts(texts, without, depth, contents, bodies)
}
