// A line of the common form: names with one binding between them, `:`, and a value. Its key and its value are stored in one pass.
#![tactic(auto)]

ghost use Rattle.std.specs.Prelude.{◌≡◌, ◌+◌, ◌≤◌, length};
ghost use Rattle.plain_keys.specs.Ended.{Ended};
ghost use Rattle.plain_entries.specs.Entries.{plain_line, with_line};

use byte_classes::Classes;
use copies::copy_in;
use limits::MOST_PARTS;
use plain_keys::plain_key;
use plain_values::{blanks, plain_value};

// A line: how many bytes it takes, and the lengths of its key and its value.
#[derive(Clone, Copy)]
pub struct EntryLine {
    pub taken: usize,
    pub key: usize,
    pub value: usize,
}

// Stores the key and the value of the line at the front of a text, if it is of the common form, from `used` on. The whole store is lent: `used`
// is the image's own number, and the copies and the value go on from it.
pub fn plain_line(
    classes: &Classes,
    text: &[u8],
    store: &mut [u8],
    used: usize,
) -> Option<EntryLine>
    requires { Ended text.now × (used + length text.now ≤ length store.old) }
    ensures { (result ≡ plain_line text.now) × (store.new ≡ with_line text.now store.old used) }
{
    let key = plain_key(classes, text)?;
    if key.count > MOST_PARTS {
        return None;
    }
    let colon = key.end;
    let size = key.extra + colon;
    store[used] = b'.';
    copy_in(&text[..colon], store, used + key.extra);
    let after = &text[colon + 1..];
    let from = blanks(classes, after);
    let value = plain_value(classes, &after[from..], store, used + size);
    Some(EntryLine {
        taken: colon + 1 + from + value.next,
        key: size,
        value: value.end - (used + size),
    })
}
