// What is kept of the path that an include looks for, as its parts are taken, in a buffer of 96 bytes.
#![tactic(auto)]

ghost use Rattle.std.specs.Prelude.{◌≡◌, ◌+◌, ◌≤◌, ◌<◌, length};
ghost use Rattle.kept_parts.specs.Keeping.{Fits, end_below, put_below, has_room, with_part, bytes_with, without_part, did, taken_part};

use copies::copy_in;
use limits::FILE_NAME_BYTES;
use paths::{folder_of, is_dot, is_dot_dot};

// Kept and the buffer stay two values, and `Fits` a clause: a step that ends the path has nothing kept, and still gives the buffer back.
// What is kept of a path so far: its first `size` bytes, which stand in a buffer of 96, and the number of its parts after these. With the
// first of them the path has more than 96 bytes, so that no file has such a name until a `..` has removed it. And was the last part `.` or `..`?
#[derive(Clone, Copy)]
pub struct Kept {
    pub size: usize,
    pub over: usize,
    pub dots: bool,
}

// Where a path of `size` bytes ends with a part of `n` bytes below it.
fn end_below(size: usize, n: usize) -> usize
    requires { size + 1 + n ≤ 18446744073709551615 }
    ensures { result ≡ end_below size n }
{
    if size == 0 {
        return n;
    }
    size + 1 + n
}

// Puts a part below the path of `size` bytes.
fn put_below(part: &[u8], size: usize, path: &mut [u8])
    requires { end_below size (length part.now) ≤ length path.old }
    ensures { path.new ≡ put_below part.now size path.old }
{
    if size == 0 {
        copy_in(part, path, 0);
        return;
    }
    path[size] = b'/';
    copy_in(part, path, size + 1);
}

// Is all of the path kept, and is there room for a part of `n` bytes below it?
fn has_room(kept: Kept, n: usize) -> bool
    requires { kept.size + 1 + n ≤ 18446744073709551615 }
    ensures { result ≡ has_room n kept }
{
    if kept.over > 0 {
        return false;
    }
    end_below(kept.size, n) <= FILE_NAME_BYTES
}

// Takes a name's part: below the path if all of it is kept and there is room, and else it is counted.
fn add_part(part: &[u8], kept: Kept, path: &mut [u8]) -> Kept
    requires { Fits kept path.old × (kept.over < 18446744073709551615) }
    ensures { (result ≡ with_part part.now kept) × (path.new ≡ bytes_with part.now kept path.old) }
{
    if has_room(kept, part.len()) {
        put_below(part, kept.size, path);
        return Kept {
            size: end_below(kept.size, part.len()),
            over: 0,
            dots: false,
        };
    }
    Kept {
        over: kept.over + 1,
        dots: false,
        ..kept
    }
}

// Takes a `..`: removes the part before it. If there is none, this is above the root, where there is no path.
fn remove_part(kept: Kept, path: &[u8]) -> Option<Kept>
    requires { Fits kept path.now }
    ensures { result ≡ without_part kept path.now }
{
    if kept.over > 0 {
        return Some(Kept {
            over: kept.over - 1,
            dots: true,
            ..kept
        });
    }
    if kept.size == 0 {
        return None;
    }
    let folder = folder_of(&path[..kept.size]);
    Some(Kept {
        size: folder.len(),
        over: 0,
        dots: true,
    })
}

// Takes one part: the path after it, or `None` above the root or at an empty part.
pub fn take_part(part: &[u8], kept: Kept, path: &mut [u8]) -> Option<Kept>
    requires { Fits kept path.old × (kept.over < 18446744073709551615) }
    ensures { did result path.new ≡ taken_part part.now kept path.old }
{
    if part.len() == 0 {
        return None;
    }
    if is_dot(part) {
        return Some(Kept { dots: true, ..kept });
    }
    if is_dot_dot(part) {
        return remove_part(kept, path);
    }
    Some(add_part(part, kept, path))
}
