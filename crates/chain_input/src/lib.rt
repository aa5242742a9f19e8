// The texts of a start-up chain, read as the arguments of getres name them; which of them its steps use, told.
#![tactic(auto)]

ghost use Rattle.std.specs.Prelude.{◌≡◌, ◌≤◌, IfSome, None, length};
ghost use Rattle.io.specs.Counts.{IsPrefixLen};

use argument_words::format_of;
use command_line::argument;
use loading::read_text;
use options::Role;
use plans::{Plan, given};
use printing::Lines;
use sources::{FirstSource, StartUp, first_source};
use std::io::Print;
use steps::{STEPS_BYTES, put_steps};

// The property is empty if it is not given.
pub fn read_property(rt: &HostRuntime, plan: Plan, buffer: &mut [u8]) -> Option<usize>
    ensures { IfSome result (λ n. IsPrefixLen n buffer.new) }
{
    match given(plan, Role::Property) {
        Some(i) => read_text(rt, i, buffer),
        None => Some(0),
    }
}

// The property's format is 8 if it is not given.
fn property_format(rt: &HostRuntime, plan: Plan) -> u8 {
    let Some(i) = given(plan, Role::Format) else {
        return 8;
    };
    let mut buffer = io::buffer();
    format_of(argument(rt, i, &mut buffer)).unwrap_or(0)
}

// A text that is not given could not be read.
fn read_given(rt: &HostRuntime, i: Option<usize>, buffer: &mut [u8]) -> Option<usize>
    ensures { IfSome result (λ n. IsPrefixLen n buffer.new) }
{
    match i {
        Some(i) => read_text(rt, i, buffer),
        None => None,
    }
}

// Reads .Xresources, or else .Xdefaults, where the first step uses one of them in place of the property: what is not reached is not opened.
fn read_first<'a>(
    rt: &HostRuntime,
    plan: Plan,
    start: StartUp<'a>,
    buffer: &'a mut [u8],
) -> StartUp<'a>
    requires { (start.xresources ≡ None) × (start.xdefaults ≡ None) }
    ensures kept { (result.property ≡ start.entry.property) × (result.xenvironment ≡ start.entry.xenvironment) × (result.host ≡ start.entry.host) }
    ensures first { IfSome result.xresources (λ t. length t.now ≤ length buffer.old) × IfSome result.xdefaults (λ t. length t.now ≤ length buffer.old) }
{
    if let FirstSource::Property = first_source(start.format, start.property, false) {
        return start;
    }
    if let Some(n) = read_given(rt, given(plan, Role::Xresources), buffer) {
        return StartUp {
            xresources: Some(&buffer[..n]),
            ..start
        };
    }
    match read_given(rt, given(plan, Role::Xdefaults), buffer) {
        Some(n) => StartUp {
            xdefaults: Some(&buffer[..n]),
            ..start
        },
        None => start,
    }
}

// Reads what XENVIRONMENT names, if it is set, and else the host's .Xdefaults.
fn read_second<'a>(
    rt: &HostRuntime,
    plan: Plan,
    start: StartUp<'a>,
    buffer: &'a mut [u8],
) -> StartUp<'a>
    requires { (start.xenvironment ≡ None) × (start.host ≡ None) }
    ensures kept { (result.property ≡ start.entry.property) × (result.xresources ≡ start.entry.xresources) × (result.xdefaults ≡ start.entry.xdefaults) }
    ensures second { IfSome result.xenvironment (λ t. length t.now ≤ length buffer.old) × IfSome result.host (λ t. length t.now ≤ length buffer.old) }
{
    let role = if start.is_set {
        Role::Xenvironment
    } else {
        Role::Host
    };
    let Some(n) = read_given(rt, given(plan, role), buffer) else {
        return start;
    };
    let text = Some(&buffer[..n]);
    if start.is_set {
        StartUp {
            xenvironment: text,
            ..start
        }
    } else {
        StartUp {
            host: text,
            ..start
        }
    }
}

// What the arguments give of a start-up chain with that property. Each text has a buffer of its own.
pub fn read_start_up<'a>(
    rt: &HostRuntime,
    plan: Plan,
    property: &'a [u8],
    first: &'a mut [u8],
    second: &'a mut [u8],
) -> StartUp<'a>
    ensures property { result.property ≡ property.entry }
    ensures first { IfSome result.xresources (λ t. length t.now ≤ length first.old) × IfSome result.xdefaults (λ t. length t.now ≤ length first.old) }
    ensures second { IfSome result.xenvironment (λ t. length t.now ≤ length second.old) × IfSome result.host (λ t. length t.now ≤ length second.old) }
{
    let named = StartUp {
        format: property_format(rt, plan),
        property,
        xresources: None,
        xdefaults: None,
        is_set: given(plan, Role::Xenvironment).is_some(),
        xenvironment: None,
        host: None,
    };
    let begun = read_first(rt, plan, named, first);
    read_second(rt, plan, begun, second)
}

// Says on standard error which text each step uses.
pub fn write_steps(rt: &HostRuntime, start: StartUp<'_>) {
    let mut buffer = [0; STEPS_BYTES];
    let mut out = Lines::new(&mut buffer);
    put_steps(
        start.format,
        start.property,
        start.xresources.is_some(),
        start.xdefaults.is_some(),
        start.is_set,
        start.xenvironment.is_some(),
        start.host.is_some(),
        &mut out,
    );
    let _ = rt.stderr().write_all(out.written());
}
