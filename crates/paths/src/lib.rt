// The parts of a path: a name's folder, the next part of a text, and the parts `.` and `..`.
#![tactic(auto)]

ghost use Rattle.std.specs.Prelude.{◌≡◌, length};
ghost use Rattle.definition.specs.Lists.{ascii, same, take_while};
ghost use Rattle.definition.specs.Archive.{folder_of};
ghost use Rattle.paths.specs.Parts.{not_slash};

// The name before its last `/`, or empty: a front of the name itself.
pub fn folder_of(name: &[u8]) -> &[u8]
    ensures { (result.now ≡ folder_of name.now) × (result.ref_ptr ≡ name.entry.ref_ptr) }
{
    for i in (0..name.len()).rev() {
        if name[i] == b'/' {
            return &name[..i];
        }
    }
    &name[..0]
}

// How many bytes stand before the next `/`.
pub fn part_len(text: &[u8]) -> usize
    ensures { result ≡ length (take_while not_slash text.now) }
{
    for (i, c) in text.iter().enumerate() {
        if *c == b'/' {
            return i;
        }
    }
    text.len()
}

pub fn is_dot(part: &[u8]) -> bool
    ensures { result ≡ same part.now (ascii ".") }
{
    part == b".".as_slice()
}

pub fn is_dot_dot(part: &[u8]) -> bool
    ensures { result ≡ same part.now (ascii "..") }
{
    part == b"..".as_slice()
}
