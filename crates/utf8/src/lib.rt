// Well-formed UTF-8: the Rust's `str::from_utf8`.
#![tactic(auto)]

ghost use Rattle.std.specs.Prelude.{◌≡◌, List, ◌∷◌, ℕ, ◌≤◌, ◌<◌, length, drop, replicate, if◌then◌else◌};
ghost use Rattle.std.proofs.Math.Option.{some, none};
ghost use Rattle.definition.specs.Bytes.{within};
ghost use Rattle.definition.specs.Value.{table, after_row, first_row, is_utf8};
ghost use Rattle.utf8.specs.Characters.{trail, after_lead, Taken};

// Is a byte from one to another?
pub fn in_range(low: u8, high: u8, c: u8) -> bool
    ensures { result ≡ within low high c }
{
    (low..=high).contains(&c)
}

// What a first byte says of the others: a byte from one to another, and then so many from 80 to BF.
#[derive(Clone, Copy)]
struct Lead(u8, u8, usize);

// The rows of Unicode's table 3-7 but the first, which is ASCII's.
fn lead_of(c: u8) -> Option<Lead>
    requires { 128 ≤ c }
    ensures { (t : List ℕ) → first_row table (c ∷ t) ≡ after_lead result t }
{
    match c {
        0xC2..=0xDF => Some(Lead(0x80, 0xBF, 0)),
        0xE0 => Some(Lead(0xA0, 0xBF, 1)),
        0xE1..=0xEC => Some(Lead(0x80, 0xBF, 1)),
        0xED => Some(Lead(0x80, 0x9F, 1)),
        0xEE..=0xEF => Some(Lead(0x80, 0xBF, 1)),
        0xF0 => Some(Lead(0x90, 0xBF, 2)),
        0xF1..=0xF3 => Some(Lead(0x80, 0xBF, 2)),
        0xF4 => Some(Lead(0x80, 0x8F, 2)),
        _ => None,
    }
}

// Do `n` bytes from 80 to BF stand first?
fn trails(text: &[u8], n: usize) -> bool
    requires { n ≤ length text.now }
    ensures { after_row (replicate n trail) text.now ≡ (if result then some (drop n text.now) else none) }
{
    text[..n].iter().all(|c| in_range(0x80, 0xBF, *c))
}

// How many bytes the first character has, if one stands first.
fn character_length(text: &[u8]) -> Option<usize>
    requires { 0 < length text.now }
    ensures { Taken text.now result }
{
    let first = text[0];
    if first < 0x80 {
        return Some(1);
    }
    let Lead(low, high, more) = lead_of(first)?;
    if text.len() - 1 <= more {
        return None;
    }
    if !in_range(low, high, text[1]) {
        return None;
    }
    if !trails(&text[2..], more) {
        return None;
    }
    Some(2 + more)
}

pub fn is_utf8(text: &[u8]) -> bool
    ensures { result ≡ is_utf8 text.now }
{
    let mut rest = text;
    // not by index: a turn takes a character, of one to four bytes
    while !rest.is_empty() {
        let Some(n) = character_length(rest) else {
            return false;
        };
        rest = &rest[n..];
    }
    true
}
