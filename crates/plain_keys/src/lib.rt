// Keys of lines of the common form: names with one binding between them, and `:`. The text ends with a newline, and no loop here passes
// one: so no byte's place is tested.
#![tactic(auto)]

ghost use Rattle.std.specs.Prelude.{◌≡◌, ◌<◌, length};
ghost use Rattle.definition.specs.Lists.{take_while};
ghost use Rattle.definition.specs.Bytes.{is_name};
ghost use Rattle.plain_keys.specs.Ended.{Ended};
ghost use Rattle.plain_keys.specs.Keys.{FirstName, plain_key};

use byte_classes::Classes;

// The first name of a text, behind a binding or not: where it starts and ends.
#[derive(Drop)]
struct First {
    start: usize,
    end: usize,
}

// A key that is the text itself, up to a `:`: where the `:` stands, how many parts there are, and how many bytes the key has before
// those of the text: one, a `.`, if the text begins with no binding.
#[derive(Clone, Copy)]
pub struct Key {
    pub end: usize,
    pub count: usize,
    pub extra: usize,
}

// That a text ends with a newline stands in each clause, here and above: a type for it would be made anew for each part that is lent on.

// How many bytes of a name stand first.
fn name_length(classes: &Classes, text: &[u8]) -> usize
    requires { Ended text.now }
    ensures { (result ≡ length (take_while is_name text.now)) × (result < length text.now) }
{
    // Four bytes by hand in a turn: by `scan::next_component_by`, which is proved to do, each byte's place is tested, which the newline at the end
    // makes needless: 512 common lines take 17 instructions of a hundred more.
    let mut i: usize = 0;
    loop {
        if !classes.allowed_in_quark_name(text[i]) {
            return i;
        }
        i += 1;
        if !classes.allowed_in_quark_name(text[i]) {
            return i;
        }
        i += 1;
        if !classes.allowed_in_quark_name(text[i]) {
            return i;
        }
        i += 1;
        if !classes.allowed_in_quark_name(text[i]) {
            return i;
        }
        i += 1;
    }
}

// The name at the front of a text, behind one binding or none.
fn first_name(classes: &Classes, text: &[u8]) -> First
    requires { Ended text.now }
    ensures { FirstName text.now result }
{
    if classes.is_binding(text[0]) {
        let n = name_length(classes, &text[1..]);
        return First {
            start: 1,
            end: 1 + n,
        };
    }
    let n = name_length(classes, text);
    First { start: 0, end: n }
}

// The key at the front of a text, however many parts it has; None if the text begins in another form.
pub fn plain_key(classes: &Classes, text: &[u8]) -> Option<Key>
    requires { Ended text.now }
    ensures { result ≡ plain_key text.now }
{
    let first = first_name(classes, text);
    let mut start = first.start;
    let mut i = first.end;
    let extra = 1 - start;
    let mut count: usize = 1;
    // not by index: a turn takes a part
    while start < i {
        let c = text[i];
        if c == b':' {
            return Some(Key {
                end: i,
                count,
                extra,
            });
        }
        if !classes.is_binding(c) {
            return None;
        }
        start = i + 1;
        i = start + name_length(classes, &text[start..]);
        count += 1;
    }
    None
}
