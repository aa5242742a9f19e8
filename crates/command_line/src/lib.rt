// The arguments of the process, and the plan that they make.
#![tactic(auto)]

ghost use Rattle.std.specs.Prelude.{◌≤◌, length};

use arguments::with_argument;
use plans::{Plan, settled};
use std::env::{Env, FillError};

// An argument, in `buffer`; of one that is longer, its first bytes.
pub fn argument<'a>(rt: &HostRuntime, i: usize, buffer: &'a mut [u8]) -> &'a [u8]
    ensures { length result.now ≤ length buffer.old }
{
    match rt.arg(i, buffer) {
        Ok(n) => &buffer[..n],
        Err(FillError::TooLong) => buffer,
        Err(FillError::NotPresent) => &buffer[..0],
    }
}

// How many arguments the process has, its own name among them.
pub fn argument_count(rt: &HostRuntime) -> usize {
    for i in 0..usize::MAX {
        let mut none = [];
        if let Err(FillError::NotPresent) = rt.arg(i, &mut none) {
            return i;
        }
    }
    usize::MAX
}

// The plan with argument `i` of the process.
pub fn next_argument(rt: &HostRuntime, plan: Plan, i: usize) -> Plan {
    let mut buffer = io::buffer();
    with_argument(plan, argument(rt, i, &mut buffer), i)
}

// What all arguments of the process ask for.
pub fn read_arguments(rt: &HostRuntime) -> Plan {
    let mut plan = Plan::default();
    for i in 1..argument_count(rt) {
        plan = next_argument(rt, plan, i);
    }
    settled(plan)
}
