// The two lent buffers of a database image, as a reading writes them.
#![tactic(auto)]

ghost use Rattle.std.specs.Prelude.{◌≡◌, ◌+◌, ◌≤◌, ◌<◌, length, get_or};
ghost use Rattle.definition.specs.Lists.{zeroes};
ghost use Rattle.image.specs.Rows.{row_start_by, row_start, origin_at, with_row, row_of, InWords, RowIsBy, RowIs};
ghost use Rattle.image.specs.Running.{Room, closed_words, closed_bytes};

use limits::ROW_WORDS;

// What a reading has met so far: document 01's limits are laid over these.
#[derive(Clone, Copy)]
pub struct Totals {
    pub opens: usize,
    pub entries: usize,
    pub used: usize,
}

// An entry's row: where its key starts among the bodies, and the lengths of key and value. The value stands behind the key.
#[derive(Drop)]
pub struct Row {
    pub start: usize,
    pub key: usize,
    pub value: usize,
}

// Where row `i` begins, in rows of `width` words.
fn row_start(width: usize, i: usize) -> usize
    requires { row_start_by width i ≤ 18446744073709551615 }
    ensures { result ≡ row_start_by width i }
{
    2 + width * i
}

// A word as a number.
fn number_at(words: &[u16], at: usize) -> usize
    requires { at < length words.now }
    ensures { (result ≡ get_or words.now at 0) × (result < 65536) }
{
    words[at] as usize
}

// Row `i` of an image's words, in rows of `width` words: an image's are of ROW_WORDS, and were of OLD_ROW_WORDS.
pub fn row_by(words: &[u16], width: usize, i: usize) -> Row
    requires { row_start_by width i + 3 ≤ length words.now }
    ensures { RowIsBy width words.now i result }
{
    let at = row_start(width, i);
    let start = number_at(words, at);
    let key = number_at(words, at + 1);
    let value = number_at(words, at + 2);
    Row { start, key, value }
}

// Row `i` of an image's words.
pub fn row_at(words: &[u16], i: usize) -> Row
    requires { row_start (i + 1) ≤ length words.now }
    ensures { RowIs words.now i result }
{
    row_by(words, ROW_WORDS, i)
}

// Where the line of row `i` stands: 0 for a text of the reading, the place of a file on the archive from 1, or UNKNOWN_FILE.
pub fn origin_at(words: &[u16], i: usize) -> usize
    requires { row_start (i + 1) ≤ length words.now }
    ensures { result ≡ origin_at words.now i }
{
    number_at(words, row_start(ROW_WORDS, i) + 3)
}

// Writes row `i`, with where its line stands.
pub fn write_row(words: &mut [u16], i: usize, row: Row, origin: u16)
    requires { (row_start (i + 1) ≤ length words.old) × InWords row }
    ensures { words.new ≡ with_row words.old i (row_of row) origin }
{
    let at = row_start(ROW_WORDS, i);
    words[at] = row.start as u16;
    words[at + 1] = row.key as u16;
    words[at + 2] = row.value as u16;
    words[at + 3] = origin;
}

// Leaves the image of no entries.
pub fn empty_image(words: &mut [u16], store: &mut [u8])
    ensures { (words.new ≡ zeroes (length words.old)) × (store.new ≡ zeroes (length store.old)) }
{
    words.fill(0);
    store.fill(0);
}

// `Room` stands in each clause: a type would hold both buffers, lent to be written, and each answer speaks of what stands in the two afterwards.

// Closes an image whose rows are written: the entry count and the bytes used stand before the rows, and all behind is zeroed.
pub fn close_image(totals: Totals, words: &mut [u16], store: &mut [u8])
    requires { Room totals words.old store.old }
    ensures { (words.new ≡ closed_words totals words.old) × (store.new ≡ closed_bytes totals store.old) }
{
    let entries = totals.entries;
    let used = totals.used;
    words[0] = entries as u16;
    words[1] = used as u16;
    words[row_start(ROW_WORDS, entries)..].fill(0);
    store[used..].fill(0);
}
