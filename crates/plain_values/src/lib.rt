// Values of lines of the common form: most are short and plain. The text ends with a newline, and no loop here passes one: so no byte's
// place is tested.
#![tactic(auto)]

ghost use Rattle.std.specs.Prelude.{◌≡◌, false, ◌+◌, ◌-◌, ◌≤◌, length, drop, get_or};
ghost use Rattle.definition.specs.Bytes.{is_blank};
ghost use Rattle.definition.specs.Text.{after_blanks};
ghost use Rattle.plain_keys.specs.Ended.{Ended};
ghost use Rattle.plain_values.specs.Values.{BlanksFirst, Valued};

use byte_classes::Classes;
use values::{parse_value, skip_blanks};

// A value: where it ends in the store, and where the next line starts.
#[derive(Drop)]
pub struct Value {
    pub end: usize,
    pub next: usize,
}

// How many blanks stand first. `values::blanks` is no twin: it passes backslash-newline pairs too, and so may come to the text's end.
pub fn blanks(classes: &Classes, text: &[u8]) -> usize
    requires { Ended text.now }
    ensures { BlanksFirst text.now result }
{
    // By hand: by an iterator, which is proved to do, each byte's place is tested, and 512 common lines take 4 instructions of a hundred more.
    let mut i: usize = 0;
    while classes.is_blank(text[i]) {
        i += 1;
    }
    i
}

// Decodes the value that begins at `from` into the store from `at` on: the whole store is lent, as `end` is a place in it, from which the row's
// number is made.
fn value_on(classes: &Classes, text: &[u8], from: usize, store: &mut [u8], at: usize) -> Value
    requires { (from ≤ length text.now) × (at + (length text.now - from) ≤ length store.old) }
    ensures { Valued text.now (drop from text.now) store.old at store.new result }
{
    let stored = parse_value(classes, &text[from..], store, at).unwrap();
    let end = stored.end;
    let passed = from + stored.taken;
    if passed < text.len() {
        return Value {
            end,
            next: passed + 1,
        };
    }
    Value { end, next: passed }
}

// So many bytes of a value are copied byte by byte.
const SHORT: usize = 8;

// The same of a value that stands first and begins with no escape: most are short and plain.
fn short_value(classes: &Classes, text: &[u8], store: &mut [u8], at: usize) -> Value
    requires { Ended text.now × (at + length text.now ≤ length store.old) }
    ensures { Valued text.now text.now store.old at store.new result }
{
    for i in 0..SHORT {
        let c = text[i];
        if c == b'\n' {
            return Value {
                end: at + i,
                next: i + 1,
            };
        }
        if c == b'\\' {
            return value_on(classes, text, i, store, at + i);
        }
        store[at + i] = c;
    }
    value_on(classes, text, SHORT, store, at + SHORT)
}

// The value of a text whose blanks are skipped, but for those after a backslash and a newline.
pub fn plain_value(classes: &Classes, text: &[u8], store: &mut [u8], at: usize) -> Value
    requires { Ended text.now × (is_blank (get_or text.now 0 0) ≡ false) × (at + length text.now ≤ length store.old) }
    ensures { Valued text.now (after_blanks text.now) store.old at store.new result }
{
    if text[0] == b'\\' {
        let rest = skip_blanks(classes, text);
        return value_on(classes, text, text.len() - rest.len(), store, at);
    }
    short_value(classes, text, store, at)
}
