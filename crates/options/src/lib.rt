// What an argument of getres says by itself: which option it is, and whether it is a value that an option takes.
#![tactic(auto)]

ghost use Rattle.std.specs.Prelude.{◌≡◌};
ghost use Rattle.options.specs.Options.{takes, option_of};

use argument_words::{depth_of, descriptor, format_of};

// What an argument is for: an operand, or the value of an option. A plan keeps the numbers of these arguments.
#[derive(Clone, Copy, PartialEq, Eq)]
pub enum Role {
    Text,
    Name,
    Class,
    Without,
    Status,
    Depth,
    // the property's format and the texts of a start-up chain
    Format,
    Property,
    Xresources,
    Xdefaults,
    Xenvironment,
    Host,
}

// What the next argument is for.
#[derive(Clone, Copy)]
pub enum Next {
    // an operand or an option
    Any,
    // an operand, whatever it looks like
    Operand,
    // the value of `--file`, which no plan keeps
    File,
    Value(Role),
}

// An option that nothing follows.
#[derive(Clone, Copy)]
pub enum Flag {
    Help,
    Missing,
    Write,
    List,
    Shared,
}

// An option, by what follows it; one of a start-up chain asks for the chain too.
#[derive(Clone, Copy)]
pub enum Choice {
    Alone(Flag),
    Before(Next),
    Chain(Next),
}

// Is an argument a value for that?
pub fn takes(role: Role, argument: &[u8]) -> bool
    ensures { result ≡ takes role argument.now }
{
    match role {
        Role::Status => descriptor(argument).is_some(),
        Role::Format => format_of(argument).is_some(),
        Role::Depth => depth_of(argument).is_some(),
        _ => true,
    }
}

// The option that an argument is.
pub fn option_of(argument: &[u8]) -> Option<Choice>
    ensures { result ≡ option_of argument.now }
{
    let Ok(word) = std::str::from_utf8(argument) else {
        return None;
    };
    match word {
        "--file" => Some(Choice::Before(Next::File)),
        "--without" => Some(Choice::Before(Next::Value(Role::Without))),
        "--status-fd" => Some(Choice::Before(Next::Value(Role::Status))),
        "--help" => Some(Choice::Alone(Flag::Help)),
        "--" => Some(Choice::Before(Next::Operand)),
        "--missing" => Some(Choice::Alone(Flag::Missing)),
        "--write" => Some(Choice::Alone(Flag::Write)),
        "--list" => Some(Choice::Alone(Flag::List)),
        "--shared" => Some(Choice::Alone(Flag::Shared)),
        "--depth" => Some(Choice::Before(Next::Value(Role::Depth))),
        "--default" => Some(Choice::Chain(Next::Any)),
        "--property" => Some(Choice::Chain(Next::Value(Role::Property))),
        "--property-format" => Some(Choice::Chain(Next::Value(Role::Format))),
        "--xresources" => Some(Choice::Chain(Next::Value(Role::Xresources))),
        "--xdefaults" => Some(Choice::Chain(Next::Value(Role::Xdefaults))),
        "--xenvironment" => Some(Choice::Chain(Next::Value(Role::Xenvironment))),
        "--host" => Some(Choice::Chain(Next::Value(Role::Host))),
        _ => None,
    }
}
