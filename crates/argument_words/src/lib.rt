// What is told of an argument of getres from its bytes alone: a descriptor, a format, a depth, whether it is an option.
#![tactic(auto)]

ghost use Rattle.std.specs.Prelude.{◌≡◌};
ghost use Rattle.argument_words.specs.Words.{descriptor, format_of, depth_of, is_option};

use integers::parse_natural;

// A descriptor from 3 to 9: those below are taken, and more than a digit is not needed.
#[tactic(auto, using(crate::proofs::Words::digit_in, crate::proofs::Words::digit_below, crate::proofs::Words::digit_above, crate::proofs::Words::no_byte, crate::proofs::Words::more_bytes))]
pub fn descriptor(argument: &[u8]) -> Option<u8>
    ensures { result ≡ descriptor argument.now }
{
    match argument {
        [digit @ b'3'..=b'9'] => Some(*digit - b'0'),
        _ => None,
    }
}

// A format that a property may have.
pub fn format_of(argument: &[u8]) -> Option<u8>
    ensures { result ≡ format_of argument.now }
{
    let Ok(word) = std::str::from_utf8(argument) else {
        return None;
    };
    match word {
        "8" => Some(8),
        "16" => Some(16),
        "32" => Some(32),
        _ => None,
    }
}

// A number up to 2^63, of which the reading refuses those over 100.
pub fn depth_of(argument: &[u8]) -> Option<u64>
    ensures { result ≡ depth_of argument.now }
{
    parse_natural(argument)
}

// An argument that begins with `-` and has more is an option.
#[tactic(auto, using(crate::proofs::Words::short_word, crate::proofs::Words::dashed, crate::proofs::Words::undashed))]
pub fn is_option(argument: &[u8]) -> bool
    ensures { result ≡ is_option argument.now }
{
    matches!(argument, [b'-', _, ..])
}
