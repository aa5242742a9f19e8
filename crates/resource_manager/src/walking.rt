// The calls of a walk: document 02 (v). The walk's state is the caller's: its next number, and the entry count from its start.
ghost use Rattle.std.specs.Prelude.{◌≡◌};
ghost use Rattle.definition.specs.Walking.{walk, walk_start, walk_step};
ghost use Rattle.codes.specs.Codes.{beginning, start_numbers, stepping, step_numbers};

use codes::{start_code, step_code};

// A walk begins: 0, with 0 in `next` and the image's entry count in `count`, for a malformed query too; or the refusal, with both as
// they were.
pub fn resource_manager_walk_start(
    contents: &[u16],
    bodies: &[u8],
    name: &[u8],
    class: &[u8],
    next: &mut u16,
    count: &mut u16,
) -> u64
    ensures { beginning result next.new count.new ≡ start_numbers (walk_start contents.now bodies.now name.now class.now) next.old count.old }
{
    let started = walk::walk_start(contents, bodies, name, class);
    start_code(started, next, count)
}

// A step from any state: the number of the entry in bits 16 to 31, with one more in `next`; 65535 at the end, and for a malformed query;
// or the refusal. With these two `next` is as it was.
pub fn resource_manager_walk_step(
    contents: &[u16],
    bodies: &[u8],
    name: &[u8],
    class: &[u8],
    next: &mut u16,
    count: u16,
) -> u64
    ensures { stepping result next.new ≡ step_numbers (walk_step contents.now bodies.now name.now class.now (walk next.old count)) (walk next.old count) }
{
    let from = *next as usize;
    let stepped = walk::walk_step(contents, bodies, name, class, from, count as usize);
    step_code(stepped, next)
}
