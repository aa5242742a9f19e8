// The lines that the list program writes.
#![tactic(auto)]

ghost use Rattle.std.specs.Prelude.{◌≤◌, length};
ghost use Rattle.definition.specs.Image.{rows_in};
ghost use Rattle.printing.specs.Putting.{Appends, left};
ghost use Rattle.list_lines.specs.Lines.{entry_line, row_lines, word_line, Listable};

use image::row_at;
use printing::Lines;

// Puts the line of a word and a number.
#[tactic(auto, using(crate::proofs::Lines::word_long))]
pub fn put_word(word: &[u8], n: usize, out: &mut Lines)
    requires { length (word_line word.now n) ≤ length (left out.old) }
    ensures { Appends (word_line word.now n) out.old out.new }
{
    out.put(word);
    out.put(b" ");
    out.put_number(n);
    out.put(b"\n");
}

// Puts an entry's line: number, key, value length.
#[tactic(auto, using(crate::proofs::Lines::entry_long))]
fn put_entry(i: usize, key: &[u8], size: usize, out: &mut Lines)
    requires { length (entry_line i key.now size) ≤ length (left out.old) }
    ensures { Appends (entry_line i key.now size) out.old out.new }
{
    out.put_number(i);
    out.put(b" ");
    out.put(key);
    out.put(b" ");
    out.put_number(size);
    out.put(b"\n");
}

// Puts the line of each entry of an image.
pub fn put_entries(contents: &[u16], bodies: &[u8], out: &mut Lines)
    requires { Listable contents.now bodies.now (left out.old) }
    ensures { Appends (row_lines 0 (rows_in contents.now) bodies.now) out.old out.new }
{
    let count = contents[0] as usize;
    for i in 0..count {
        let row = row_at(contents, i);
        let start = row.start;
        let middle = start + row.key;
        put_entry(i, &bodies[start..middle], row.value, out);
    }
}
