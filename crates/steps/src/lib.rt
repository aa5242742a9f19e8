// Which text each step of a start-up chain uses, in words.
#![tactic(auto)]

ghost use Rattle.std.specs.Prelude.{◌≡◌, ◌≤◌, length};
ghost use Rattle.printing.specs.Putting.{Appends, left};
ghost use Rattle.steps.specs.Steps.{first_line, second_line, steps_of, steps_bytes};

use printing::Lines;
use sources::{FirstSource, SecondSource, first_source, second_source};

// Room for both lines.
pub const STEPS_BYTES: usize = 200;

// The line of the first step.
#[tactic(auto, unfolding(crate::specs::Steps::first_line))]
fn first_line(source: FirstSource, xdefaults_read: bool) -> &'static [u8]
    ensures { (result.now ≡ first_line source xdefaults_read) × (length result.now ≤ 100) }
{
    match (source, xdefaults_read) {
        (FirstSource::Property, _) => b"getres: first text: the property\n",
        (FirstSource::Xresources, _) => {
            b"getres: first text: .Xresources, as the property is empty or not of format 8\n"
        }
        (FirstSource::Xdefaults, true) => {
            b"getres: first text: .Xdefaults, as .Xresources could not be read\n"
        }
        (FirstSource::Xdefaults, false) => {
            b"getres: first text: none, as neither .Xresources nor .Xdefaults could be read\n"
        }
    }
}

// The line of the second step.
#[tactic(auto, unfolding(crate::specs::Steps::second_line))]
fn second_line(source: SecondSource, xenvironment_read: bool, host_read: bool) -> &'static [u8]
    ensures { (result.now ≡ second_line source xenvironment_read host_read) × (length result.now ≤ 100) }
{
    match (source, xenvironment_read, host_read) {
        (SecondSource::Xenvironment, true, _) => {
            b"getres: second text: the one that XENVIRONMENT names\n"
        }
        (SecondSource::Xenvironment, false, _) => {
            b"getres: second text: none, as the one that XENVIRONMENT names could not be read\n"
        }
        (SecondSource::Host, _, true) => {
            b"getres: second text: the host's .Xdefaults, as XENVIRONMENT is not set\n"
        }
        (SecondSource::Host, _, false) => {
            b"getres: second text: none, as XENVIRONMENT is not set and the host's .Xdefaults could not be read\n"
        }
    }
}

// Puts a line for each step: which text it uses, or that there is none, and why.
// Seven arguments: of four texts it asks only whether they were read. A `StartUp` asks for the texts too, and what docs/TRACE.md names
// may not ask more.
pub fn put_steps(
    property_format: u8,
    property: &[u8],
    xresources_read: bool,
    xdefaults_read: bool,
    xenvironment_set: bool,
    xenvironment_read: bool,
    host_read: bool,
    out: &mut Lines,
)
    requires { steps_bytes ≤ length (left out.old) }
    ensures { Appends (steps_of property_format property.now xresources_read xdefaults_read xenvironment_set xenvironment_read host_read) out.old out.new }
{
    let first = first_source(property_format, property, xresources_read);
    out.put(first_line(first, xdefaults_read));
    let second = second_source(xenvironment_set);
    out.put(second_line(second, xenvironment_read, host_read));
}
