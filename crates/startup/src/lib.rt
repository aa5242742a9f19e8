// What a reader starts with, read: `new_from_default` of the Rust, with all that it reads lent.
#![tactic(auto)]

ghost use Rattle.std.specs.Prelude.{◌≡◌};
ghost use Rattle.definition.specs.Reading.{outcome};
ghost use Rattle.definition.specs.StartUp.{starting};
ghost use Rattle.reader.specs.Said.{said};
ghost use Rattle.sources.specs.Lending.{as_lent};

use reader::{Accepted, read_texts};
use refusal::Refusal;
use sources::StartUp;

// Reads what a reader starts with: document 02 (i), at a depth.
pub fn read_default(
    start: StartUp<'_>,
    archive: &[u8],
    depth: u64,
    contents: &mut [u16],
    bodies: &mut [u8],
) -> Result<Accepted, Refusal>
    ensures { outcome (said result) contents.new bodies.new ≡ starting depth (as_lent start.entry) archive.now contents.old bodies.old }
{
    let texts = start.texts();
    read_texts(&texts, archive, depth, contents, bodies)
}
