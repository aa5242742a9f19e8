// The calls that resource_manager_c gives to C, Rust and the tests to link. Their signatures are C's: flags and buffers come one by one, and
// each call stands alone, also where two differ by a depth or by the window's bounds.
#![tactic(auto)]

pub mod boards;
pub mod comparing;
pub mod nesting;
pub mod walking;
pub mod window;

ghost use Rattle.std.specs.Prelude.{[], ◌∷◌, ◌≡◌};
ghost use Rattle.definition.specs.Limits.{greatest_depth, default_depth};
ghost use Rattle.definition.specs.Reading.{reading};
ghost use Rattle.definition.specs.StartUp.{starting};
ghost use Rattle.definition.specs.Lookup.{get_bytes};
ghost use Rattle.definition.specs.Value as definition;
ghost use Rattle.definition.specs.Value.{get_string, get_bool, get_value};
ghost use Rattle.definition.specs.Writing.{writing};
ghost use Rattle.definition.specs.Adding.{adding};
ghost use Rattle.definition.specs.Migration.{migrating};
ghost use Rattle.sources.specs.Lending.{lending, start_up, as_lent};
ghost use Rattle.codes.specs.Codes.{place_code, bool_code, taking, taken};
ghost use Rattle.resource_manager.specs.Boundary.{yes, crossed, crossing, filling, fill_code, add_crossed};
ghost use Rattle.readings.specs.Showing.{shown_at};

use codes::{add_code, bool_code, place_code, read_code, value_code, write_code};
use limits::{DEFAULT_DEPTH, GREATEST_DEPTH};
use sources::{StartUp, lent};

// What a reader starts with, as C lends it. A flag is no if it is 0, else yes; a text is there if it could be read.
fn start_of<'a>(
    property_format: u8,
    property: &'a [u8],
    xresources_read: u8,
    xresources: &'a [u8],
    xdefaults_read: u8,
    xdefaults: &'a [u8],
    xenvironment_set: u8,
    xenvironment_read: u8,
    xenvironment: &'a [u8],
    host_read: u8,
    host: &'a [u8],
) -> StartUp<'a>
    ensures { as_lent result ≡ start_up property_format property.now (lending (yes xresources_read) xresources.now) (lending (yes xdefaults_read) xdefaults.now) (yes xenvironment_set) (lending (yes xenvironment_read) xenvironment.now) (lending (yes host_read) host.now) }
{
    StartUp {
        format: property_format,
        property,
        xresources: lent(xresources_read != 0, xresources),
        xdefaults: lent(xdefaults_read != 0, xdefaults),
        is_set: xenvironment_set != 0,
        xenvironment: lent(xenvironment_read != 0, xenvironment),
        host: lent(host_read != 0, host),
    }
}

// Document 01's reading call, at depth 20. The low 16 bits are 0, or the number of the refusal and that alone; entries stand in bits 16 to
// 31 and opens in bits 32 to 47.
pub fn resource_manager_read(
    text: &[u8],
    shelf: &[u8],
    contents: &mut [u16],
    bodies: &mut [u8],
) -> u64
    ensures { crossing result contents.new bodies.new ≡ crossed (reading default_depth (text.now ∷ []) shelf.now contents.old bodies.old) }
{
    let answer = reader::read(text, shelf, DEFAULT_DEPTH, contents, bodies);
    read_code(answer)
}

// The reading call over what a reader starts with: document 02 (i), at depth 100. A flag is no if it is 0, else yes. The answer is that
// of `resource_manager_read`.
pub fn resource_manager_read_default<'a>(
    property_format: u8,
    property: &'a [u8],
    xresources_read: u8,
    xresources: &'a [u8],
    xdefaults_read: u8,
    xdefaults: &'a [u8],
    xenvironment_set: u8,
    xenvironment_read: u8,
    xenvironment: &'a [u8],
    host_read: u8,
    host: &'a [u8],
    shelf: &[u8],
    contents: &mut [u16],
    bodies: &mut [u8],
) -> u64
    ensures { crossing result contents.new bodies.new ≡ crossed (starting greatest_depth (start_up property_format property.now (lending (yes xresources_read) xresources.now) (lending (yes xdefaults_read) xdefaults.now) (yes xenvironment_set) (lending (yes xenvironment_read) xenvironment.now) (lending (yes host_read) host.now)) shelf.now contents.old bodies.old) }
{
    let start = start_of(
        property_format,
        property,
        xresources_read,
        xresources,
        xdefaults_read,
        xdefaults,
        xenvironment_set,
        xenvironment_read,
        xenvironment,
        host_read,
        host,
    );
    let answer = startup::read_default(start, shelf, GREATEST_DEPTH, contents, bodies);
    read_code(answer)
}

// Carries an old image, whose rows have three words, over into new buffers: the answer is that of `resource_manager_read`, with no opens.
pub fn resource_manager_migrate(
    old_contents: &[u16],
    old_bodies: &[u8],
    contents: &mut [u16],
    bodies: &mut [u8],
) -> u64
    ensures { crossing result contents.new bodies.new ≡ crossed (migrating old_contents.now old_bodies.now contents.old bodies.old) }
{
    let answer = migration::migrate(old_contents, old_bodies, contents, bodies);
    read_code(answer)
}

// The value of a query: its place in the bodies in bits 16 to 31 and its length from bit 32 on; 65535 for none; or the refusal.
pub fn resource_manager_get_bytes(contents: &[u16], bodies: &[u8], name: &[u8], class: &[u8]) -> u64
    ensures { result ≡ place_code (get_bytes contents.now bodies.now name.now class.now) }
{
    let found = lookup::get_bytes(contents, bodies, name, class);
    place_code(found)
}

// The value of a query, or else a default: the answer is that of `resource_manager_get_bytes`. `shown` is lent as the default, and with
// status 0 it is the value's bytes afterwards, a part of the bodies; with any other it stays the default.
pub fn resource_manager_show<'a>(
    contents: &[u16],
    bodies: &'a [u8],
    name: &[u8],
    class: &[u8],
    shown: &mut &'a [u8],
) -> u64
    ensures { (result ≡ place_code (get_bytes contents.now bodies.now name.now class.now)) × (shown.new.now ≡ definition.shown contents.now bodies.now name.now class.now shown.old.now) × (shown.new.ref_ptr ≡ shown_at (get_bytes contents.now bodies.now name.now class.now) bodies.entry.ref_ptr shown.old.ref_ptr) }
{
    let default = *shown;
    let found = lookup::get_bytes(contents, bodies, name, class);
    *shown = readings::value_or(found, bodies, default);
    place_code(found)
}

// The same for a value that is well-formed UTF-8: else none.
pub fn resource_manager_get_string(
    contents: &[u16],
    bodies: &[u8],
    name: &[u8],
    class: &[u8],
) -> u64
    ensures { result ≡ place_code (get_string contents.now bodies.now name.now class.now) }
{
    let found = readings::get_string(contents, bodies, name, class);
    place_code(found)
}

// 65536 for true, 0 for false, 65535 for none, or the refusal.
pub fn resource_manager_get_bool(contents: &[u16], bodies: &[u8], name: &[u8], class: &[u8]) -> u64
    ensures { result ≡ bool_code (get_bool contents.now bodies.now name.now class.now) }
{
    let truth = readings::get_bool(contents, bodies, name, class);
    bool_code(truth)
}

// 0 with the number in `out`; 65534 if the value is not a number, 65535 for none, or the refusal, with `out` as it was.
pub fn resource_manager_get_value(
    contents: &[u16],
    bodies: &[u8],
    name: &[u8],
    class: &[u8],
    out: &mut i64,
) -> u64
    ensures { taking result out.new ≡ taken (get_value contents.now bodies.now name.now class.now) out.old }
{
    let value = readings::get_value(contents, bodies, name, class);
    value_code(value, out)
}

// The text of an image's entries, at the front of `text`: its length from bit 32 on; or the refusal, with `text` as it was. Bytes past
// the text stay.
pub fn resource_manager_write(contents: &[u16], bodies: &[u8], text: &mut [u8]) -> u64
    ensures { filling result text.new ≡ fill_code (writing contents.now bodies.now text.old) }
{
    let answer = writer::write(contents, bodies, text);
    write_code(answer)
}

// Adds the entry that a text makes to an image: its number from bit 16 on; or the refusal, with both buffers as they were.
pub fn resource_manager_add(contents: &mut [u16], bodies: &mut [u8], text: &[u8]) -> u64
    ensures { crossing result contents.new bodies.new ≡ add_crossed (adding contents.old bodies.old text.now) }
{
    let answer = adding::add(contents, bodies, text);
    add_code(answer)
}
