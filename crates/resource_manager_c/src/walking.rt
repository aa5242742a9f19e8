// The calls of a walk.
ghost use Rattle.std.specs.Prelude.{◌≡◌};
ghost use Rattle.definition.specs.Walking.{walk, walk_start, walk_step};
ghost use Rattle.codes.specs.Codes.{beginning, start_numbers, stepping, step_numbers};

#[unsafe(no_mangle)]
pub extern "C" fn resource_manager_walk_start(
    contents: &[u16],
    bodies: &[u8],
    name: &[u8],
    class: &[u8],
    next: &mut u16,
    count: &mut u16,
) -> u64
    ensures { beginning result next.new count.new ≡ start_numbers (walk_start contents.now bodies.now name.now class.now) next.old count.old }
{
    resource_manager::walking::resource_manager_walk_start(
        contents, bodies, name, class, next, count,
    )
}

#[unsafe(no_mangle)]
pub extern "C" fn resource_manager_walk_step(
    contents: &[u16],
    bodies: &[u8],
    name: &[u8],
    class: &[u8],
    next: &mut u16,
    count: u16,
) -> u64
    ensures { stepping result next.new ≡ step_numbers (walk_step contents.now bodies.now name.now class.now (walk next.old count)) (walk next.old count) }
{
    resource_manager::walking::resource_manager_walk_step(
        contents, bodies, name, class, next, count,
    )
}
