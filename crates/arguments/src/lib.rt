// What getres's arguments ask for, taken one at a time.
#![tactic(auto)]

ghost use Rattle.std.specs.Prelude.{◌≡◌};
ghost use Rattle.arguments.specs.Planning.{with_operand, with_value, with_flag, with_option, with_argument, NameEnds};

use argument_words::is_option;
use options::{Choice, Flag, Next, Role, option_of, takes};
use plans::{Plan, given, misunderstood, once};

// The first operand is the text, the second the name and the third the class.
fn with_operand(plan: Plan, i: usize) -> Plan
    ensures { result ≡ with_operand plan i }
{
    if given(plan, Role::Text).is_none() {
        return once(plan, Role::Text, i);
    }
    if given(plan, Role::Name).is_none() {
        return once(plan, Role::Name, i);
    }
    once(plan, Role::Class, i)
}

// The value of the option before it.
fn with_value(plan: Plan, role: Role, argument: &[u8], i: usize) -> Plan
    ensures { result ≡ with_value plan role argument.now i }
{
    let more = Plan {
        next: Next::Any,
        ..plan
    };
    if takes(role, argument) {
        once(more, role, i)
    } else {
        misunderstood(more, Some(i))
    }
}

// An option that nothing follows. A database is written out or listed: the second of the two is not understood.
fn with_flag(plan: Plan, flag: Flag, i: usize) -> Plan
    ensures { result ≡ with_flag plan flag i }
{
    match flag {
        Flag::Help => Plan { help: true, ..plan },
        Flag::Missing => Plan {
            missing: true,
            ..plan
        },
        Flag::Write if plan.list => misunderstood(plan, Some(i)),
        Flag::Write => Plan {
            write: true,
            ..plan
        },
        Flag::List if plan.write => misunderstood(plan, Some(i)),
        Flag::List => Plan { list: true, ..plan },
        Flag::Shared => Plan {
            shared: true,
            ..plan
        },
    }
}

// An option, or an argument that looks like one.
fn with_option(plan: Plan, option: Option<Choice>, i: usize) -> Plan
    ensures { result ≡ with_option plan option i }
{
    match option {
        Some(Choice::Alone(flag)) => with_flag(plan, flag, i),
        Some(Choice::Before(next)) => Plan { next, ..plan },
        Some(Choice::Chain(next)) => Plan {
            next,
            chain: true,
            ..plan
        },
        None => misunderstood(plan, Some(i)),
    }
}

// The plan with argument `i`. The value of `--file` is taken when the files are loaded.
pub fn with_argument(plan: Plan, argument: &[u8], i: usize) -> Plan
    ensures { result ≡ with_argument plan argument.now i }
{
    match plan.next {
        Next::Any if is_option(argument) => with_option(plan, option_of(argument), i),
        Next::Any | Next::Operand => with_operand(plan, i),
        Next::File => Plan {
            next: Next::Any,
            ..plan
        },
        Next::Value(role) => with_value(plan, role, argument, i),
    }
}

// Where the name ends in the value of `--file`, `NAME=PATH`: at the first `=`, or the end.
pub fn name_end(argument: &[u8]) -> usize
    ensures { NameEnds argument.now result }
{
    argument
        .iter()
        .position(|c| *c == b'=')
        .unwrap_or(argument.len())
}
