// An answer as getres shows it: its line, and whether two are the same.
#![tactic(auto)]

ghost use Rattle.std.specs.Prelude.{◌≡◌, ◌≤◌, length};
ghost use Rattle.printing.specs.Putting.{Appends, left};
ghost use Rattle.lookup.specs.Replies.{LiesIn};
ghost use Rattle.showing.specs.Showing.{shown_of, lent, value_bytes, same_shown, words_of, line_of};

use lookup::Place;
use printing::Lines;
use refusal::Refusal;

// The value that a lookup found in the bodies, none or a refusal.
pub fn value_of<'a>(
    found: Result<Option<Place>, Refusal>,
    bodies: &'a [u8],
) -> Result<Option<&'a [u8]>, Refusal>
    requires { LiesIn found (length bodies.now) }
    ensures { (lent result ≡ shown_of bodies.now found) × (value_bytes (lent result) ≤ length bodies.now) }
{
    let Some(place) = found? else {
        return Ok(None);
    };
    Ok(Some(&bodies[place.start..place.start + place.size]))
}

// Are two answers the same: both none, or the same bytes?
#[tactic(auto, unfolding(crate::specs::Showing::same_shown))]
pub fn same_answer(a: Result<Option<&[u8]>, Refusal>, b: Result<Option<&[u8]>, Refusal>) -> bool
    ensures { result ≡ same_shown (lent a.entry) (lent b.entry) }
{
    match (a, b) {
        (Ok(Some(v)), Ok(Some(w))) => v == w,
        (Ok(None), Ok(None)) => true,
        _ => false,
    }
}

// Puts what a line says of an answer.
#[tactic(auto, unfolding(crate::specs::Showing::words_of))]
fn put_words(answer: Result<Option<&[u8]>, Refusal>, out: &mut Lines)
    requires { length (words_of (lent answer)) ≤ length (left out.old) }
    ensures { Appends (words_of (lent answer.entry)) out.old out.new }
{
    match answer {
        Ok(Some(value)) => {
            out.put(b"value ");
            out.put(value);
        }
        Ok(None) => out.put(b"none"),
        Err(_) => out.put(b"refused"),
    }
}

// Puts the line of an answer.
#[tactic(auto, using(crate::proofs::Lines::line_long))]
pub fn put_line(label: &[u8], file: &[u8], answer: Result<Option<&[u8]>, Refusal>, out: &mut Lines)
    requires { length (line_of label.now file.now (lent answer)) ≤ length (left out.old) }
    ensures { Appends (line_of label.now file.now (lent answer.entry)) out.old out.new }
{
    out.put(label);
    out.put(file);
    out.put(b": ");
    put_words(answer, out);
    out.put(b"\n");
}
