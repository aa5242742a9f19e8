// The readings of a value that a lookup finds: `get_string`, `get_bool` and `get_value` of the Rust, and the value or a default.
#![tactic(auto)]

ghost use Rattle.std.specs.Prelude.{◌≡◌, ◌+◌, ◌≤◌, length, Ok};
ghost use Rattle.definition.specs.Query.{window};
ghost use Rattle.definition.specs.Lookup.{get_bytes_within, get_bytes, bytes_at};
ghost use Rattle.definition.specs.Value.{as_string, as_bool, as_number, bytes_or, get_string_within, get_bool_within, get_value_within, shown_within, get_string, get_bool, get_value, shown};
ghost use Rattle.lookup.specs.Replies.{replied, place_of, LiesIn};
ghost use Rattle.readings.specs.Replies.{truth_replied, value_replied};
ghost use Rattle.readings.specs.Showing.{shown_at};

use booleans::to_bool;
use integers::parse_i64;
use lookup::{Place, get_bytes, window_get_bytes};
use refusal::Refusal;
use utf8::is_utf8;

// The bytes that stand at a value's place.
fn bytes_at(bodies: &[u8], place: Place) -> &[u8]
    requires { place.start + place.size ≤ length bodies.now }
    ensures { (result.now ≡ bytes_at bodies.now (place_of place)) × (result.ref_ptr ≡ (bodies.entry.ref_ptr.0, place.start + bodies.entry.ref_ptr.1)) }
{
    &bodies[place.start..place.start + place.size]
}

// What a lookup found, if it is well-formed UTF-8.
// That the place lies in the bodies stays in three contracts: callers want the place itself, and a type of both would be built in each call only to be
// taken apart here.
fn string_of(found: Option<Place>, bodies: &[u8]) -> Option<Place>
    requires { LiesIn (Ok found) (length bodies.now) }
    ensures said { replied (Ok result) ≡ as_string bodies.now (replied (Ok found)) }
    ensures within { LiesIn (Ok result) (length bodies.now) }
{
    let place = found?;
    if is_utf8(bytes_at(bodies, place)) {
        Some(place)
    } else {
        None
    }
}

// The boolean of what a lookup found, if that is a string. UTF-8 is asked for here: a place that another call hands on takes stack.
fn bool_of(found: Option<Place>, bodies: &[u8]) -> Option<bool>
    requires { LiesIn (Ok found) (length bodies.now) }
    ensures { truth_replied (Ok result) ≡ as_bool bodies.now (as_string bodies.now (replied (Ok found))) }
{
    let place = found?;
    let bytes = bytes_at(bodies, place);
    if !is_utf8(bytes) {
        return None; // no string
    }
    to_bool(bytes)
}

// Why a lookup of a number has none: what it found is a string and no number, or it is refused.
#[derive(Clone, Copy, Debug, PartialEq, Eq)]
pub enum ValueError {
    NotANumber,
    Refused(Refusal),
}

impl From<Refusal> for ValueError {
    ghost use Rattle.readings.specs.declared.ValueError.{ValueError};

    ghost from_gives = { λ k e. e ≡ ValueError.Refused k };

    fn from(refusal: Refusal) -> ValueError {
        ValueError::Refused(refusal)
    }
}

// The number of what a lookup found, if that is a string.
fn value_of(found: Option<Place>, bodies: &[u8]) -> Result<Option<i64>, ValueError>
    requires { LiesIn (Ok found) (length bodies.now) }
    ensures { value_replied result ≡ as_number bodies.now (as_string bodies.now (replied (Ok found))) }
{
    let Some(place) = found else {
        return Ok(None);
    };
    let bytes = bytes_at(bodies, place);
    if !is_utf8(bytes) {
        return Ok(None); // no string
    }
    match parse_i64(bytes) {
        Some(number) => Ok(Some(number)),
        None => Err(ValueError::NotANumber),
    }
}

// The bytes of what a lookup found, or else the default: a part of one of the two.
pub fn value_or<'a>(
    found: Result<Option<Place>, Refusal>,
    bodies: &'a [u8],
    default: &'a [u8],
) -> &'a [u8]
    requires { LiesIn found (length bodies.now) }
    ensures { (result.now ≡ bytes_or bodies.now default.now (replied found)) × (result.ref_ptr ≡ shown_at (replied found) bodies.entry.ref_ptr default.entry.ref_ptr) }
{
    match found {
        Ok(Some(place)) => bytes_at(bodies, place),
        Ok(None) => default,
        Err(_) => default,
    }
}

// The shell's calls and then the window's. They stay pairs, since each is but its lookup and a reading that both share: no closure over
// the lookup is plainer. The value's place if it is well-formed UTF-8:
pub fn get_string(
    contents: &[u16],
    bodies: &[u8],
    name: &[u8],
    class: &[u8],
) -> Result<Option<Place>, Refusal>
    ensures { replied result ≡ get_string contents.now bodies.now name.now class.now }
{
    let found = get_bytes(contents, bodies, name, class)?;
    Ok(string_of(found, bodies))
}

pub fn get_bool(
    contents: &[u16],
    bodies: &[u8],
    name: &[u8],
    class: &[u8],
) -> Result<Option<bool>, Refusal>
    ensures { truth_replied result ≡ get_bool contents.now bodies.now name.now class.now }
{
    let found = get_bytes(contents, bodies, name, class)?;
    Ok(bool_of(found, bodies))
}

pub fn get_value(
    contents: &[u16],
    bodies: &[u8],
    name: &[u8],
    class: &[u8],
) -> Result<Option<i64>, ValueError>
    ensures { value_replied result ≡ get_value contents.now bodies.now name.now class.now }
{
    let found = get_bytes(contents, bodies, name, class)?;
    value_of(found, bodies)
}

// A query's value, or else the default; none and refusals show the default.
pub fn show<'a>(
    contents: &[u16],
    bodies: &'a [u8],
    name: &[u8],
    class: &[u8],
    default: &'a [u8],
) -> &'a [u8]
    ensures { (result.now ≡ shown contents.now bodies.now name.now class.now default.now) × (result.ref_ptr ≡ shown_at (get_bytes contents.now bodies.now name.now class.now) bodies.entry.ref_ptr default.entry.ref_ptr) }
{
    let found = get_bytes(contents, bodies, name, class);
    value_or(found, bodies, default)
}

// The dictionary window's calls, shaped as the shell's: document 02 (vi).
pub fn window_get_string(
    contents: &[u16],
    bodies: &[u8],
    name: &[u8],
    class: &[u8],
) -> Result<Option<Place>, Refusal>
    ensures { replied result ≡ get_string_within window contents.now bodies.now name.now class.now }
{
    let found = window_get_bytes(contents, bodies, name, class)?;
    Ok(string_of(found, bodies))
}

pub fn window_get_bool(
    contents: &[u16],
    bodies: &[u8],
    name: &[u8],
    class: &[u8],
) -> Result<Option<bool>, Refusal>
    ensures { truth_replied result ≡ get_bool_within window contents.now bodies.now name.now class.now }
{
    let found = window_get_bytes(contents, bodies, name, class)?;
    Ok(bool_of(found, bodies))
}

pub fn window_get_value(
    contents: &[u16],
    bodies: &[u8],
    name: &[u8],
    class: &[u8],
) -> Result<Option<i64>, ValueError>
    ensures { value_replied result ≡ get_value_within window contents.now bodies.now name.now class.now }
{
    let found = window_get_bytes(contents, bodies, name, class)?;
    value_of(found, bodies)
}

// A query's value, or else the default; none and refusals show the default.
pub fn window_show<'a>(
    contents: &[u16],
    bodies: &'a [u8],
    name: &[u8],
    class: &[u8],
    default: &'a [u8],
) -> &'a [u8]
    ensures { (result.now ≡ shown_within window contents.now bodies.now name.now class.now default.now) × (result.ref_ptr ≡ shown_at (get_bytes_within window contents.now bodies.now name.now class.now) bodies.entry.ref_ptr default.entry.ref_ptr) }
{
    let found = window_get_bytes(contents, bodies, name, class);
    value_or(found, bodies, default)
}
