// The parts at the front of a line: `parse_binding`, `next_component_name` and `parse_components` of the Rust's parser.
// A part is left where it stands in the text. The key is written afterwards: it is the text itself in most lines, and else a second pass writes it.
#![tactic(auto)]

ghost use Rattle.std.specs.Prelude.{◌≡◌, true, ◌+◌, ◌≤◌, ◌<◌, length};
ghost use Rattle.std.proofs.Math.Seq.{paste};
ghost use Rattle.definition.specs.Image.{binding_byte};
ghost use Rattle.components.specs.Parts.{binding_if, key_first, components_at, is_verbatim, Bound, Begun, Parted};

use byte_classes::Classes;
use copies::copy_in;
use scan::{next_component_by, starts_with};

// Bindings, one after another: is one a `*`, and how many are there?
#[derive(Clone, Copy)]
struct Run {
    loose: bool,
    len: usize,
}

// A component: is it a name, and how long is it?
#[derive(Clone, Copy)]
struct Component {
    named: bool,
    len: usize,
}

// A part: how it is bound, whether it is a name, and where its component stands.
#[derive(Clone, Copy)]
struct Next {
    loose: bool,
    named: bool,
    start: usize,
    end: usize,
}

// The parts at the front of a line: how many, the length of the key that writes them, whether the last is a name, where they
// end, and whether the key is the text itself: one binding before each part, or none before the first.
#[derive(Clone, Copy)]
pub struct Components {
    pub count: usize,
    pub size: usize,
    pub named: bool,
    pub end: usize,
    pub verbatim: bool,
}

fn parse_binding(classes: &Classes, text: &[u8]) -> Run
    ensures { Bound text.now result }
{
    let mut loose = false;
    for (len, c) in text.iter().enumerate() {
        if !classes.is_binding(*c) {
            return Run { loose, len };
        }
        loose = loose | (*c == b'*');
    }
    Run {
        loose,
        len: text.len(),
    }
}

fn next_component_name(classes: &Classes, text: &[u8]) -> Option<Component>
    ensures { Begun text.now result }
{
    let len = next_component_by(classes, text);
    if len > 0 {
        return Some(Component { named: true, len });
    }
    if starts_with(text, b"?") {
        return Some(Component {
            named: false,
            len: 1,
        });
    }
    None
}

fn next_part(classes: &Classes, text: &[u8]) -> Option<Next>
    ensures { Parted text.now result }
{
    let bound = parse_binding(classes, text);
    let start = bound.len;
    let found = next_component_name(classes, &text[start..])?;
    Some(Next {
        loose: bound.loose,
        named: found.named,
        start,
        end: start + found.len,
    })
}

pub fn parse_components(classes: &Classes, text: &[u8]) -> Components
    ensures { result ≡ components_at text.now }
{
    let mut rest = text;
    let mut count: usize = 0;
    let mut size: usize = 0;
    let mut named = false;
    let mut verbatim = true;
    // not by index: a turn takes a part and its binding
    while let Some(next) = next_part(classes, rest) {
        let start = next.start;
        let end = next.end;
        if start != 1 {
            verbatim = verbatim & (start == 0) & (count == 0);
        }
        count += 1;
        size += 1 + (end - start);
        named = next.named;
        rest = &rest[end..];
    }
    Components {
        count,
        size,
        named,
        end: text.len() - rest.len(),
        verbatim,
    }
}

fn binding_byte(loose: bool) -> u8
    ensures { result ≡ binding_byte (binding_if loose) }
{
    if loose { b'*' } else { b'.' }
}

// Writes the key of the parts at the front of `text` into `store` from `at` on, part by part.
fn write_parts(classes: &Classes, text: &[u8], store: &mut [u8], at: usize)
    requires { at + length (key_first text.now) ≤ length store.old }
    ensures { store.new ≡ paste store.old at (key_first text.now) (length (key_first text.now)) }
{
    let mut rest = text;
    let mut place = at;
    // not by index: a turn takes a part and its binding
    while let Some(next) = next_part(classes, rest) {
        let start = next.start;
        let end = next.end;
        store[place] = binding_byte(next.loose);
        copy_in(&rest[start..end], store, place + 1);
        place += 1 + (end - start);
        rest = &rest[end..];
    }
}

// The same where the key, of `size` bytes, is the text itself: a `.` comes first if the text begins with no binding.
fn copy_key(classes: &Classes, text: &[u8], size: usize, store: &mut [u8], at: usize)
    requires { (is_verbatim text.now ≡ true) × (size ≡ length (key_first text.now)) × (0 < size) × (at + size ≤ length store.old) }
    ensures { store.new ≡ paste store.old at (key_first text.now) (length (key_first text.now)) }
{
    if classes.is_binding(text[0]) {
        copy_in(&text[..size], store, at);
        return;
    }
    store[at] = b'.';
    copy_in(&text[..size - 1], store, at + 1);
}

// Writes the key of the parts at the front of `text`, which `parse_components` found, into `store` from `at` on.
// A `size` and a `verbatim` of their own: in a struct beside Components and the lines' Resource they were written twice, and no plainer.
// `at` is a number of the image's rows: a slice from there on would have it counted a second time, which is no plainer.
pub fn write_key(
    classes: &Classes,
    text: &[u8],
    size: usize,
    verbatim: bool,
    store: &mut [u8],
    at: usize,
)
    requires { (verbatim ≡ is_verbatim text.now) × (size ≡ length (key_first text.now)) × (0 < size) × (at + size ≤ length store.old) }
    ensures { store.new ≡ paste store.old at (key_first text.now) (length (key_first text.now)) }
{
    if verbatim {
        copy_key(classes, text, size, store, at);
        return;
    }
    write_parts(classes, text, store, at);
}
