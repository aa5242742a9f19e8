// The comparing call of a start-up: one query, asked with a file on the archive and with it struck off.
#![tactic(auto)]

ghost use Rattle.definition.specs.StartUp.{texts_used};
ghost use Rattle.sources.specs.Lending.{as_lent};
ghost use Rattle.compare.specs.Comparing.{asked, leaving, Promise};

use compare::compare_without;
use comparison::Both;
use refusal::Refusal;
use sources::StartUp;

// Reads what a reader starts with, document 02 (i), with the archive and again at the same depth with one file struck off (files are counted
// from 0), and looks the query up in both. `struck` is room for the archive without the file. `None`: the archive has no such file.
pub fn compare_default_without(
    start: StartUp<'_>,
    archive: &[u8],
    depth: u64,
    file: usize,
    name: &[u8],
    class: &[u8],
    struck: &mut [u8],
    contents: &mut [u16],
    bodies: &mut [u8],
    contents_without: &mut [u16],
    bodies_without: &mut [u8],
) -> Result<Option<Both>, Refusal>
    ensures { Promise (asked depth (texts_used (as_lent start.entry)) archive.now file name.now class.now contents.old bodies.old contents_without.old bodies_without.old) struck.old (leaving result struck.new contents.new bodies.new contents_without.new bodies_without.new) }
{
    let texts = start.texts();
    compare_without(
        &texts,
        archive,
        depth,
        file,
        name,
        class,
        struck,
        contents,
        bodies,
        contents_without,
        bodies_without,
    )
}
