// A value's bytes as a boolean: the Rust's `to_bool`.
#![tactic(auto)]

ghost use Rattle.std.specs.Prelude.{◌≡◌, [], ◌∷◌, map};
ghost use Rattle.definition.specs.Lists.{any, same};
ghost use Rattle.definition.specs.Value.{lowercase, word_of, to_bool};
ghost use Rattle.booleans.specs.Readings.{boolean_in};

use integers::parse_i64;

// Is `text` the word, ignoring ASCII case?
fn is_word(text: &[u8], word: &[u8]) -> bool
    ensures { result ≡ same (map lowercase text.now) (map lowercase word.now) }
{
    text.eq_ignore_ascii_case(word)
}

fn is_one_of(text: &[u8], a: &[u8], b: &[u8], c: &[u8]) -> bool
    ensures { result ≡ any (λ w. same (map lowercase text.now) (map lowercase w)) (a.now ∷ b.now ∷ c.now ∷ []) }
{
    is_word(text, a) || is_word(text, b) || is_word(text, c)
}

fn word_to_bool(text: &[u8]) -> Option<bool>
    ensures { boolean_in result ≡ word_of (map lowercase text.now) }
{
    if is_one_of(text, b"true", b"on", b"yes") {
        return Some(true);
    }
    if is_one_of(text, b"false", b"off", b"no") {
        return Some(false);
    }
    None
}

pub fn to_bool(text: &[u8]) -> Option<bool>
    ensures { boolean_in result ≡ to_bool text.now }
{
    match parse_i64(text) {
        Some(number) => Some(number != 0),
        None => word_to_bool(text),
    }
}
