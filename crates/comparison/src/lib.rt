// What a query with a file on the archive, and with it struck off, is answered.
#![tactic(auto)]

ghost use Rattle.std.specs.Prelude.{◌≡◌};
ghost use Rattle.comparison.specs.Answering.{looked, answering};
ghost use Rattle.definition.specs.Lookup.{get_bytes};
ghost use Rattle.reader.specs.Said.{said};

use lookup::{Place, get_bytes};
use reader::Accepted;
use refusal::Refusal;

// The answers of both lookups and of the second reading.
#[derive(Clone, Copy)]
pub struct Both {
    pub with_it: Option<Place>,
    pub without: Result<Option<Place>, Refusal>,
    pub second: Result<Accepted, Refusal>,
}

// The query, looked up in the image with the file and in the one without it. What refuses the first lookup refuses the second too, and
// the call.
pub fn look_up_both(
    contents: &[u16],
    bodies: &[u8],
    contents_without: &[u16],
    bodies_without: &[u8],
    name: &[u8],
    class: &[u8],
    second: Result<Accepted, Refusal>,
) -> Result<Both, Refusal>
    ensures { looked result ≡ answering (get_bytes contents.now bodies.now name.now class.now) (get_bytes contents_without.now bodies_without.now name.now class.now) (said second) }
{
    let with_it = get_bytes(contents, bodies, name, class)?;
    let without = get_bytes(contents_without, bodies_without, name, class);
    Ok(Both {
        with_it,
        without,
        second,
    })
}
