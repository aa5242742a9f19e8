// What getres is to do, as its arguments say it: a plan.
#![tactic(auto)]

ghost use Rattle.std.specs.Prelude.{◌≡◌, Some};
ghost use Rattle.plans.specs.Plans.{nothing_asked, given_for, depth_unasked, misunderstood, once, placed, uncompared, unasked, settled, has_operands, is_whole};

use limits::{DEFAULT_DEPTH, GREATEST_DEPTH};
use options::{Next, Role};

// How many roles there are.
pub const ROLES: usize = 12;

// Arguments by their numbers. `given` has those that the options name, by their roles; `wrong` is the first that is not understood;
// `next` is what the next one is for; `help`, `missing`, the includes that find no file, `write`, the database written out, `list`, the
// entries that align, `shared`, the keys that two included files share, and `chain`, a start-up chain, are asked for or not.
#[derive(Clone, Copy)]
pub struct Plan {
    pub given: [Option<usize>; ROLES],
    pub wrong: Option<usize>,
    pub next: Next,
    pub help: bool,
    pub missing: bool,
    pub write: bool,
    pub list: bool,
    pub shared: bool,
    pub chain: bool,
}

// Nothing is asked. By hand: a derive says each field by itself, and this says that the plan is the definition's.
impl Default for Plan {
    ghost is_default = { λ plan. plan ≡ nothing_asked };

    fn default() -> Plan {
        Plan {
            given: [None; ROLES],
            wrong: None,
            next: Next::Any,
            help: false,
            missing: false,
            write: false,
            list: false,
            shared: false,
            chain: false,
        }
    }
}

// The argument that was given for something.
pub fn given(plan: Plan, role: Role) -> Option<usize>
    ensures { result ≡ given_for plan role }
{
    plan.given[role as usize]
}

// The depth of a reading for which none is asked: that of a call that is given none, which for a chain is the greatest.
pub fn depth_unasked(plan: Plan) -> u64
    ensures { result ≡ depth_unasked plan }
{
    if plan.chain {
        GREATEST_DEPTH
    } else {
        DEFAULT_DEPTH
    }
}

// Argument `i`, if there is one, is not understood.
pub fn misunderstood(plan: Plan, i: Option<usize>) -> Plan
    ensures { result ≡ misunderstood plan i }
{
    Plan {
        wrong: plan.wrong.or(i),
        ..plan
    }
}

// Argument `i`, given for something. A second one is not understood.
pub fn once(plan: Plan, role: Role, i: usize) -> Plan
    ensures { result ≡ once plan role i }
{
    if given(plan, role).is_some() {
        return misunderstood(plan, Some(i));
    }
    let mut more = plan;
    more.given[role as usize] = Some(i);
    more
}

// A chain has no text among its operands, and one that is over is not understood.
fn placed(plan: Plan) -> Plan
    ensures { result ≡ placed plan }
{
    if !plan.chain {
        return plan;
    }
    let mut more = plan;
    more.given[Role::Text as usize] = None;
    more.given[Role::Name as usize] = given(plan, Role::Text);
    more.given[Role::Class as usize] = given(plan, Role::Name);
    misunderstood(more, given(plan, Role::Class))
}

// What is written out or listed is one database: `--without` is not understood.
fn uncompared(plan: Plan) -> Plan
    ensures { result ≡ uncompared plan }
{
    misunderstood(plan, given(plan, Role::Without))
}

// A database that is written out is asked no query: a name is not understood either.
fn unasked(plan: Plan) -> Plan
    ensures { result ≡ unasked plan }
{
    uncompared(misunderstood(plan, given(plan, Role::Name)))
}

// The plan once all arguments are taken.
pub fn settled(plan: Plan) -> Plan
    ensures { result ≡ settled plan }
{
    let more = placed(plan);
    if plan.write {
        return unasked(more);
    }
    if plan.list {
        return uncompared(more);
    }
    more
}

// Is the name there, or, of a database that is written out, the text or a chain?
fn has_operands(plan: Plan) -> bool
    ensures { result ≡ has_operands plan }
{
    if plan.write {
        plan.chain || given(plan, Role::Text).is_some()
    } else {
        given(plan, Role::Name).is_some()
    }
}

// Are the operands there, and does no option lack its value?
pub fn is_whole(plan: Plan) -> bool
    ensures { result ≡ is_whole plan }
{
    has_operands(plan) && matches!(plan.next, Next::Any | Next::Operand)
}
