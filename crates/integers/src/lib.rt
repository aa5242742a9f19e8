// A value's bytes as a number: the Rust's `i64::from_str`.
#![tactic(auto)]

ghost use Rattle.std.specs.Prelude.{◌≡◌, ◌≤◌, ◌^◌};
ghost use Rattle.std.proofs.Math.Option.{some};
ghost use Rattle.definition.specs.Value.{natural_of, signed, i64_of};
ghost use Rattle.integers.specs.Readings.{magnitude, natural_in, number_in};

use utf8::in_range;

// The greatest magnitude of an i64.
const MOST: u64 = 9223372036854775808;

// A number without its sign, if an i64 has it with one.
pub fn parse_natural(text: &[u8]) -> Option<u64>
    ensures { natural_in result ≡ magnitude (natural_of text.now) }
{
    if text.is_empty() {
        return None;
    }
    let mut n: u64 = 0;
    for c in text {
        if !in_range(b'0', b'9', *c) {
            return None;
        }
        n = n.checked_mul(10)?.checked_add((*c - b'0') as u64)?;
    }
    if n <= MOST { Some(n) } else { None }
}

fn with_sign(negative: bool, n: u64) -> Option<i64>
    ensures { number_in result ≡ signed negative (some n) }
{
    if negative {
        0i64.checked_sub_unsigned(n)
    } else {
        0i64.checked_add_unsigned(n)
    }
}

fn signed_number(negative: bool, text: &[u8]) -> Option<i64>
    ensures { number_in result ≡ signed negative (natural_of text.now) }
{
    let n = parse_natural(text)?;
    with_sign(negative, n)
}

pub fn parse_i64(text: &[u8]) -> Option<i64>
    ensures { number_in result ≡ i64_of text.now }
{
    match text {
        [b'-', rest @ ..] => signed_number(true, rest),
        [b'+', rest @ ..] => signed_number(false, rest),
        _ => signed_number(false, text),
    }
}
