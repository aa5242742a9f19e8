// Lines of the common form, one after another, with the empty lines and comments among them; any other line is left to the code that
// has all forms. The text ends with a newline and surely has room: so no byte's place is tested.
#![tactic(auto)]

ghost use Rattle.std.specs.Prelude.{◌≡◌, ◌<◌, length};
ghost use Rattle.image.specs.Running.{Room};
ghost use Rattle.plain_lines.specs.Lines.{passed_at, reached, plain_lines};

use byte_classes::Classes;
use image::{Row, Totals, write_row};
use limits::MOST_ENTRIES;
use plain_entries::plain_line;
use skips::line_end;

// How far the lines go that were read, and the totals after them: opens do not change.
#[derive(Drop)]
pub struct Ahead {
    pub taken: usize,
    pub entries: usize,
    pub used: usize,
}

// How many bytes an empty line takes that stands first, or a comment up to its newline. None for any other line.
#[tactic(auto, using(crate::proofs::Lining::over_empty, crate::proofs::Lining::over_comment, crate::proofs::Lining::over_other))]
fn passed_over(text: &[u8]) -> Option<usize>
    requires { 0 < length text.now }
    ensures { result ≡ passed_at text.now }
{
    let c = text[0];
    if c == b'\n' {
        return Some(1);
    }
    if c == b'!' {
        return Some(line_end(text));
    }
    None
}

// Reads the lines of the common form at the front of a text, with the empty lines and comments among them, as far as they go, if it ends
// with a newline and surely has room. The text is that of `origin`.
pub fn plain_lines(
    classes: &Classes,
    text: &[u8],
    totals: Totals,
    words: &mut [u16],
    store: &mut [u8],
    origin: u16,
) -> Ahead
    requires { Room totals words.old store.old }
    ensures { reached result words.new store.new ≡ plain_lines origin text.now totals.entries totals.used words.old store.old }
{
    let mut taken: usize = 0;
    let mut entries = totals.entries;
    let mut used = totals.used;
    let n = text.len();
    if n == 0 || n > store.len() - used || text[n - 1] != b'\n' {
        return Ahead {
            taken,
            entries,
            used,
        };
    }
    // not by index: a turn takes a line
    while taken < n && entries < MOST_ENTRIES {
        let Some(line) = plain_line(classes, &text[taken..], store, used) else {
            let Some(over) = passed_over(&text[taken..]) else {
                return Ahead {
                    taken,
                    entries,
                    used,
                };
            };
            taken += over;
            continue;
        };
        let key = line.key;
        let value = line.value;
        let row = Row {
            start: used,
            key,
            value,
        };
        write_row(words, entries, row, origin);
        entries += 1;
        used += key + value;
        taken += line.taken;
    }
    Ahead {
        taken,
        entries,
        used,
    }
}
