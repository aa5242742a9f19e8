// The calls for C, Rust and the tests to link: each is the library's of its name, with its clauses. A slice passes as a pointer and an element
// count.
#![tactic(auto)]

mod boards;
mod comparing;
mod nesting;
mod walking;
mod window;

ghost use Rattle.std.specs.Prelude.{[], ◌∷◌, ◌≡◌};
ghost use Rattle.definition.specs.Limits.{greatest_depth, default_depth};
ghost use Rattle.definition.specs.Reading.{reading};
ghost use Rattle.definition.specs.StartUp.{starting};
ghost use Rattle.definition.specs.Lookup.{get_bytes};
ghost use Rattle.definition.specs.Value as definition;
ghost use Rattle.definition.specs.Value.{get_string, get_bool, get_value};
ghost use Rattle.definition.specs.Writing.{writing};
ghost use Rattle.definition.specs.Adding.{adding};
ghost use Rattle.definition.specs.Migration.{migrating};
ghost use Rattle.sources.specs.Lending.{lending, start_up};
ghost use Rattle.codes.specs.Codes.{place_code, bool_code, taking, taken};
ghost use Rattle.resource_manager.specs.Boundary.{yes, crossed, crossing, filling, fill_code, add_crossed};
ghost use Rattle.readings.specs.Showing.{shown_at};

#[unsafe(no_mangle)]
pub extern "C" fn resource_manager_read(
    text: &[u8],
    shelf: &[u8],
    contents: &mut [u16],
    bodies: &mut [u8],
) -> u64
    ensures { crossing result contents.new bodies.new ≡ crossed (reading default_depth (text.now ∷ []) shelf.now contents.old bodies.old) }
{
    resource_manager::resource_manager_read(text, shelf, contents, bodies)
}

#[unsafe(no_mangle)]
pub extern "C" fn resource_manager_read_default<'a>(
    property_format: u8,
    property: &'a [u8],
    xresources_read: u8,
    xresources: &'a [u8],
    xdefaults_read: u8,
    xdefaults: &'a [u8],
    xenvironment_set: u8,
    xenvironment_read: u8,
    xenvironment: &'a [u8],
    host_read: u8,
    host: &'a [u8],
    shelf: &[u8],
    contents: &mut [u16],
    bodies: &mut [u8],
) -> u64
    ensures { crossing result contents.new bodies.new ≡ crossed (starting greatest_depth (start_up property_format property.now (lending (yes xresources_read) xresources.now) (lending (yes xdefaults_read) xdefaults.now) (yes xenvironment_set) (lending (yes xenvironment_read) xenvironment.now) (lending (yes host_read) host.now)) shelf.now contents.old bodies.old) }
{
    resource_manager::resource_manager_read_default(
        property_format,
        property,
        xresources_read,
        xresources,
        xdefaults_read,
        xdefaults,
        xenvironment_set,
        xenvironment_read,
        xenvironment,
        host_read,
        host,
        shelf,
        contents,
        bodies,
    )
}

#[unsafe(no_mangle)]
pub extern "C" fn resource_manager_migrate(
    old_contents: &[u16],
    old_bodies: &[u8],
    contents: &mut [u16],
    bodies: &mut [u8],
) -> u64
    ensures { crossing result contents.new bodies.new ≡ crossed (migrating old_contents.now old_bodies.now contents.old bodies.old) }
{
    resource_manager::resource_manager_migrate(old_contents, old_bodies, contents, bodies)
}

#[unsafe(no_mangle)]
pub extern "C" fn resource_manager_get_bytes(
    contents: &[u16],
    bodies: &[u8],
    name: &[u8],
    class: &[u8],
) -> u64
    ensures { result ≡ place_code (get_bytes contents.now bodies.now name.now class.now) }
{
    resource_manager::resource_manager_get_bytes(contents, bodies, name, class)
}

#[unsafe(no_mangle)]
pub extern "C" fn resource_manager_show<'a>(
    contents: &[u16],
    bodies: &'a [u8],
    name: &[u8],
    class: &[u8],
    shown: &mut &'a [u8],
) -> u64
    ensures { (result ≡ place_code (get_bytes contents.now bodies.now name.now class.now)) × (shown.new.now ≡ definition.shown contents.now bodies.now name.now class.now shown.old.now) × (shown.new.ref_ptr ≡ shown_at (get_bytes contents.now bodies.now name.now class.now) bodies.entry.ref_ptr shown.old.ref_ptr) }
{
    resource_manager::resource_manager_show(contents, bodies, name, class, shown)
}

#[unsafe(no_mangle)]
pub extern "C" fn resource_manager_get_string(
    contents: &[u16],
    bodies: &[u8],
    name: &[u8],
    class: &[u8],
) -> u64
    ensures { result ≡ place_code (get_string contents.now bodies.now name.now class.now) }
{
    resource_manager::resource_manager_get_string(contents, bodies, name, class)
}

#[unsafe(no_mangle)]
pub extern "C" fn resource_manager_get_bool(
    contents: &[u16],
    bodies: &[u8],
    name: &[u8],
    class: &[u8],
) -> u64
    ensures { result ≡ bool_code (get_bool contents.now bodies.now name.now class.now) }
{
    resource_manager::resource_manager_get_bool(contents, bodies, name, class)
}

#[unsafe(no_mangle)]
pub extern "C" fn resource_manager_get_value(
    contents: &[u16],
    bodies: &[u8],
    name: &[u8],
    class: &[u8],
    out: &mut i64,
) -> u64
    ensures { taking result out.new ≡ taken (get_value contents.now bodies.now name.now class.now) out.old }
{
    resource_manager::resource_manager_get_value(contents, bodies, name, class, out)
}

#[unsafe(no_mangle)]
pub extern "C" fn resource_manager_write(contents: &[u16], bodies: &[u8], text: &mut [u8]) -> u64
    ensures { filling result text.new ≡ fill_code (writing contents.now bodies.now text.old) }
{
    resource_manager::resource_manager_write(contents, bodies, text)
}

#[unsafe(no_mangle)]
pub extern "C" fn resource_manager_add(contents: &mut [u16], bodies: &mut [u8], text: &[u8]) -> u64
    ensures { crossing result contents.new bodies.new ≡ add_crossed (adding contents.old bodies.old text.now) }
{
    resource_manager::resource_manager_add(contents, bodies, text)
}
