// The calls that take a depth: document 02 (x). At depth d the texts at depths 0 to d are read; every number over 100 is refused by 15.
ghost use Rattle.std.specs.Prelude.{[], ◌∷◌, ◌≡◌};
ghost use Rattle.definition.specs.Reading.{reading};
ghost use Rattle.definition.specs.StartUp.{starting};
ghost use Rattle.sources.specs.Lending.{lending, start_up};
ghost use Rattle.compare.specs.Comparing.{asked};
ghost use Rattle.codes.specs.Codes.{numbers};
ghost use Rattle.resource_manager.specs.Boundary.{yes, crossed, crossing, compares, Crosses};

use crate::start_of;
use codes::{compare_code, read_code};

// `resource_manager_read` at a depth.
pub fn resource_manager_read_depth(
    text: &[u8],
    shelf: &[u8],
    depth: u64,
    contents: &mut [u16],
    bodies: &mut [u8],
) -> u64
    ensures { crossing result contents.new bodies.new ≡ crossed (reading depth (text.now ∷ []) shelf.now contents.old bodies.old) }
{
    let answer = reader::read(text, shelf, depth, contents, bodies);
    read_code(answer)
}

// `resource_manager_read_default` at a depth.
pub fn resource_manager_read_default_depth<'a>(
    property_format: u8,
    property: &'a [u8],
    xresources_read: u8,
    xresources: &'a [u8],
    xdefaults_read: u8,
    xdefaults: &'a [u8],
    xenvironment_set: u8,
    xenvironment_read: u8,
    xenvironment: &'a [u8],
    host_read: u8,
    host: &'a [u8],
    shelf: &[u8],
    depth: u64,
    contents: &mut [u16],
    bodies: &mut [u8],
) -> u64
    ensures { crossing result contents.new bodies.new ≡ crossed (starting depth (start_up property_format property.now (lending (yes xresources_read) xresources.now) (lending (yes xdefaults_read) xdefaults.now) (yes xenvironment_set) (lending (yes xenvironment_read) xenvironment.now) (lending (yes host_read) host.now)) shelf.now contents.old bodies.old) }
{
    let start = start_of(
        property_format,
        property,
        xresources_read,
        xresources,
        xdefaults_read,
        xdefaults,
        xenvironment_set,
        xenvironment_read,
        xenvironment,
        host_read,
        host,
    );
    let answer = startup::read_default(start, shelf, depth, contents, bodies);
    read_code(answer)
}

// `resource_manager_compare_without` at a depth, which is that of both readings.
pub fn resource_manager_compare_without_depth<'a>(
    text: &'a [u8],
    shelf: &[u8],
    depth: u64,
    file: usize,
    name: &[u8],
    class: &[u8],
    struck: &mut [u8],
    contents: &mut [u16],
    bodies: &mut [u8],
    contents_without: &mut [u16],
    bodies_without: &mut [u8],
    with_it: &mut u64,
    without: &mut u64,
) -> u64
    ensures { Crosses (asked depth (text.now ∷ []) shelf.now file name.now class.now contents.old bodies.old contents_without.old bodies_without.old) struck.old with_it.old without.old (compares (numbers result with_it.new without.new) struck.new contents.new bodies.new contents_without.new bodies_without.new) }
{
    let texts: [&'a [u8]; 1] = [text];
    let answer = compare::compare_without(
        &texts,
        shelf,
        depth,
        file,
        name,
        class,
        struck,
        contents,
        bodies,
        contents_without,
        bodies_without,
    );
    compare_code(answer, with_it, without)
}
