// What the list program writes for a text.
#![tactic(auto)]

ghost use Rattle.std.specs.Prelude.{◌≤◌, length};
ghost use Rattle.definition.specs.Lists.{ascii};
ghost use Rattle.refusal.specs.Numbers.{number};
ghost use Rattle.printing.specs.Putting.{Appends, left};
ghost use Rattle.list_lines.specs.Lines.{word_line};
ghost use Rattle.listing.specs.Listing.{list_bytes, printed, RefusesLong};

use limits::{CONTENTS_WORDS, DEFAULT_DEPTH};
use list_lines::{put_entries, put_word};
use printing::Lines;
use reader::read;
use refusal::Refusal;

// Puts the line of a refusal: its number. The room is used up when it returns, so no type that is lent can hold it: each contract asks.
#[tactic(auto, using(list_lines::proofs::Lines::word_most))]
fn put_refusal(refusal: Refusal, out: &mut Lines)
    requires { list_bytes ≤ length (left out.old) }
    ensures { Appends (word_line (ascii "refused") (number refusal)) out.old out.new }
{
    put_word(b"refused", u8::from(refusal) as usize, out);
}

// Reads a main text with an archive of no files, and puts what is written for it.
pub fn list(text: &[u8], out: &mut Lines)
    requires { list_bytes ≤ length (left out.old) }
    ensures { Appends (printed text.now) out.old out.new }
{
    let mut contents = [0; CONTENTS_WORDS];
    let mut bodies = [0; 32768];
    match read(text, b"\0\0", DEFAULT_DEPTH, &mut contents, &mut bodies) {
        Ok(accepted) => {
            put_word(b"entries", accepted.entries, out);
            put_entries(&contents, &bodies, out);
        }
        Err(refusal) => put_refusal(refusal, out),
    }
}

// Puts what is written for a text that is longer than a main text may be.
pub fn refuse_long(out: &mut Lines)
    requires { list_bytes ≤ length (left out.old) }
    ensures { RefusesLong out.old out.new }
{
    put_refusal(Refusal::LongText, out);
}
