// The comparing calls.
ghost use Rattle.std.specs.Prelude.{[], ◌∷◌};
ghost use Rattle.definition.specs.Limits.{greatest_depth, default_depth};
ghost use Rattle.definition.specs.StartUp.{texts_used};
ghost use Rattle.sources.specs.Lending.{lending, start_up};
ghost use Rattle.compare.specs.Comparing.{asked};
ghost use Rattle.codes.specs.Codes.{numbers};
ghost use Rattle.resource_manager.specs.Boundary.{yes, compares, Crosses};

use crate::start_of;
use codes::compare_code;
use limits::{DEFAULT_DEPTH, GREATEST_DEPTH};

// A query's value with a file on the archive and with it struck off, both read at depth 20: 0 with the numbers of both lookups in `with_it`
// and `without`; 65535 if the archive has no such file, or the refusal, with both as they were.
pub fn resource_manager_compare_without<'a>(
    text: &'a [u8],
    shelf: &[u8],
    file: usize,
    name: &[u8],
    class: &[u8],
    struck: &mut [u8],
    contents: &mut [u16],
    bodies: &mut [u8],
    contents_without: &mut [u16],
    bodies_without: &mut [u8],
    with_it: &mut u64,
    without: &mut u64,
) -> u64
    ensures { Crosses (asked default_depth (text.now ∷ []) shelf.now file name.now class.now contents.old bodies.old contents_without.old bodies_without.old) struck.old with_it.old without.old (compares (numbers result with_it.new without.new) struck.new contents.new bodies.new contents_without.new bodies_without.new) }
{
    let texts: [&'a [u8]; 1] = [text];
    let answer = compare::compare_without(
        &texts,
        shelf,
        DEFAULT_DEPTH,
        file,
        name,
        class,
        struck,
        contents,
        bodies,
        contents_without,
        bodies_without,
    );
    compare_code(answer, with_it, without)
}

// The same over what a reader starts with: document 02 (i), both at depth 100, with flags as `resource_manager_read_default` takes them.
pub fn resource_manager_compare_default_without<'a>(
    property_format: u8,
    property: &'a [u8],
    xresources_read: u8,
    xresources: &'a [u8],
    xdefaults_read: u8,
    xdefaults: &'a [u8],
    xenvironment_set: u8,
    xenvironment_read: u8,
    xenvironment: &'a [u8],
    host_read: u8,
    host: &'a [u8],
    shelf: &[u8],
    file: usize,
    name: &[u8],
    class: &[u8],
    struck: &mut [u8],
    contents: &mut [u16],
    bodies: &mut [u8],
    contents_without: &mut [u16],
    bodies_without: &mut [u8],
    with_it: &mut u64,
    without: &mut u64,
) -> u64
    ensures { Crosses (asked greatest_depth (texts_used (start_up property_format property.now (lending (yes xresources_read) xresources.now) (lending (yes xdefaults_read) xdefaults.now) (yes xenvironment_set) (lending (yes xenvironment_read) xenvironment.now) (lending (yes host_read) host.now))) shelf.now file name.now class.now contents.old bodies.old contents_without.old bodies_without.old) struck.old with_it.old without.old (compares (numbers result with_it.new without.new) struck.new contents.new bodies.new contents_without.new bodies_without.new) }
{
    let start = start_of(
        property_format,
        property,
        xresources_read,
        xresources,
        xdefaults_read,
        xdefaults,
        xenvironment_set,
        xenvironment_read,
        xenvironment,
        host_read,
        host,
    );
    let answer = compare_default::compare_default_without(
        start,
        shelf,
        GREATEST_DEPTH,
        file,
        name,
        class,
        struck,
        contents,
        bodies,
        contents_without,
        bodies_without,
    );
    compare_code(answer, with_it, without)
}
