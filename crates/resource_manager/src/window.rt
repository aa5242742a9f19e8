// The dictionary window's calls: document 02 (vi). Each is shaped as the shell's of the same name and answers as it does, with 9 and 10 at
// the window's bounds: a name and a class of at most 128 bytes and 8 parts each. They take little stack.
ghost use Rattle.std.specs.Prelude.{◌≡◌};
ghost use Rattle.definition.specs.Query.{window};
ghost use Rattle.definition.specs.Lookup.{get_bytes_within};
ghost use Rattle.definition.specs.Value.{get_string_within, get_bool_within, get_value_within, shown_within};
ghost use Rattle.codes.specs.Codes.{place_code, bool_code, taking, taken};
ghost use Rattle.readings.specs.Showing.{shown_at};

use codes::{bool_code, place_code, value_code};

pub fn resource_manager_window_get_bytes(
    contents: &[u16],
    bodies: &[u8],
    name: &[u8],
    class: &[u8],
) -> u64
    ensures { result ≡ place_code (get_bytes_within window contents.now bodies.now name.now class.now) }
{
    let found = lookup::window_get_bytes(contents, bodies, name, class);
    place_code(found)
}

pub fn resource_manager_window_show<'a>(
    contents: &[u16],
    bodies: &'a [u8],
    name: &[u8],
    class: &[u8],
    shown: &mut &'a [u8],
) -> u64
    ensures { (result ≡ place_code (get_bytes_within window contents.now bodies.now name.now class.now)) × (shown.new.now ≡ shown_within window contents.now bodies.now name.now class.now shown.old.now) × (shown.new.ref_ptr ≡ shown_at (get_bytes_within window contents.now bodies.now name.now class.now) bodies.entry.ref_ptr shown.old.ref_ptr) }
{
    let default = *shown;
    let found = lookup::window_get_bytes(contents, bodies, name, class);
    *shown = readings::value_or(found, bodies, default);
    place_code(found)
}

pub fn resource_manager_window_get_string(
    contents: &[u16],
    bodies: &[u8],
    name: &[u8],
    class: &[u8],
) -> u64
    ensures { result ≡ place_code (get_string_within window contents.now bodies.now name.now class.now) }
{
    let found = readings::window_get_string(contents, bodies, name, class);
    place_code(found)
}

pub fn resource_manager_window_get_bool(
    contents: &[u16],
    bodies: &[u8],
    name: &[u8],
    class: &[u8],
) -> u64
    ensures { result ≡ bool_code (get_bool_within window contents.now bodies.now name.now class.now) }
{
    let truth = readings::window_get_bool(contents, bodies, name, class);
    bool_code(truth)
}

pub fn resource_manager_window_get_value(
    contents: &[u16],
    bodies: &[u8],
    name: &[u8],
    class: &[u8],
    out: &mut i64,
) -> u64
    ensures { taking result out.new ≡ taken (get_value_within window contents.now bodies.now name.now class.now) out.old }
{
    let value = readings::window_get_value(contents, bodies, name, class);
    value_code(value, out)
}
