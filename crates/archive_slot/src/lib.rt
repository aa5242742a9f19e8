// The place of a name among the files of document 01's shelf.
#![tactic(auto)]

ghost use Rattle.std.specs.Prelude.{◌≡◌};
ghost use Rattle.archive_slot.specs.Slots.{slot_for};

use archive::{Archive, lengths_at, member_at};
use file_names::lower;

// A place among the files: `index` files stand below it, and the name of the next begins at `at`.
#[derive(Clone, Copy)]
pub struct Slot {
    pub index: usize,
    pub at: usize,
}

// Where the name stands among the files of the archive, as the library's `binary_search` answers: the place of the file that has it, or
// an Err of the place where it would go in.
pub fn slot_for(archive: Archive<'_>, name: &[u8]) -> Result<Slot, Slot>
    ensures { result ≡ slot_for name.now archive.entry.bytes.now }
{
    let bytes = archive.bytes;
    let count = archive.count();
    let mut at = lengths_at(count);
    for j in 0..count {
        let member = member_at(bytes, j, at);
        let here = &bytes[member.start..member.body];
        if !lower(here, name) {
            let slot = Slot { index: j, at };
            if lower(name, here) {
                return Err(slot);
            }
            return Ok(slot);
        }
        at = member.end;
    }
    Err(Slot { index: count, at })
}
