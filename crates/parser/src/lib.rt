// Entries: the Rust's `parse_entry`, and the row that it makes.
#![tactic(auto)]

ghost use Rattle.std.specs.Prelude.{◌≡◌};
ghost use Rattle.image.specs.Running.{world};
ghost use Rattle.parser.specs.Putting.{Asked, Putting};

use byte_classes::Classes;
use components::write_key;
use image::{Row, Totals, write_row};
use limits::{MOST_ENTRIES, MOST_PARTS};
use lines::Resource;
use refusal::Refusal;
use values::{parse_value, skip_blanks};

// Stores the entry of a line, or says which limit refuses it; the line stands in the text of `origin`.
pub fn parse_entry(
    classes: &Classes,
    text: &[u8],
    resource: Resource,
    totals: Totals,
    words: &mut [u16],
    store: &mut [u8],
    origin: u16,
) -> Result<(usize, Totals), Refusal>
    requires { Asked text.now resource totals words.old store.old }
    ensures { Putting text.now resource.value origin (world totals words.old store.old) words.new store.new result }
{
    let opens = totals.opens;
    let entries = totals.entries;
    let used = totals.used;
    if resource.count > MOST_PARTS {
        return Err(Refusal::ManyParts);
    }
    if entries >= MOST_ENTRIES {
        return Err(Refusal::ManyEntries);
    }
    let size = resource.size;
    if size > store.len() - used {
        return Err(Refusal::FullBodies);
    }
    write_key(classes, text, size, resource.verbatim, store, used);
    let at = used + size;
    let rest = skip_blanks(classes, &text[resource.value..]);
    let Some(stored) = parse_value(classes, rest, store, at) else {
        return Err(Refusal::FullBodies);
    };
    let end = stored.end;
    let row = Row {
        start: used,
        key: size,
        value: end - at,
    };
    write_row(words, entries, row, origin);
    let next = Totals {
        opens,
        entries: entries + 1,
        used: end,
    };
    let passed = text.len() - rest.len() + stored.taken;
    if passed < text.len() {
        Ok((passed + 1, next))
    } else {
        Ok((passed, next))
    }
}
