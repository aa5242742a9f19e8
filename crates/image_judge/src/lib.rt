// Do two lent buffers hold a database image? Every lookup asks this first, so it goes once over the bytes of the keys and looks at no
// byte of a value. An old image, whose rows have three words, is judged by the same code.
#![tactic(auto)]

ghost use Rattle.std.specs.Prelude.{◌≡◌, true, false, ◌+◌, ◌*◌, ◌≤◌, ◌<◌, length, drop, MatchResult};
ghost use Rattle.definition.specs.Lists.{all};
ghost use Rattle.definition.specs.Limits.{old_row_words, row_words, body_bytes, most_entries};
ghost use Rattle.definition.specs.Image.{rows_from, origins_from, count_of, key_at, value_at, is_key, is_origin, is_image_by, is_image};
ghost use Rattle.image.specs.Rows.{row_start_by, row_start, row_at, origin_at, RowIs};
ghost use Rattle.image_judge.specs.Rows.{holds, is_packed_by};

use image::{Row, origin_at, row_at, row_by};
use key_judge::is_key;
use limits::{ARCHIVE_FILES, BODY_BYTES, MOST_ENTRIES, OLD_ROW_WORDS, ROW_WORDS, UNKNOWN_FILE};
use refusal::Refusal;

// Are keys and values packed from 0 up to `used`, and is each key one? A row that reaches past `used` ends the test, so every key
// lies within the bodies.
fn rows_hold(contents: &[u16], bodies: &[u8], width: usize, count: usize, used: usize) -> bool
    requires { (3 ≤ width) × (row_start_by width count ≤ length contents.now) × (used ≤ length bodies.now) }
    ensures { result ≡ holds 0 (rows_from width count (drop 2 contents.now)) used bodies.now }
{
    let mut at: usize = 0;
    for i in 0..count {
        let row = row_by(contents, width, i);
        let start = row.start;
        if start != at {
            return false;
        }
        let key_end = at + row.key;
        let value_end = key_end + row.value;
        if used < value_end {
            return false;
        }
        if !is_key(&bodies[at..key_end]) {
            return false;
        }
        at = value_end;
    }
    at == used
}

// Does each row say where its line stands: in a text of the reading, in a file's place, or nobody knows where?
fn origins_hold(contents: &[u16], count: usize) -> bool
    requires { row_start count ≤ length contents.now }
    ensures { result ≡ all is_origin (origins_from row_words count (drop 2 contents.now)) }
{
    for i in 0..count {
        let origin = origin_at(contents, i);
        if ARCHIVE_FILES < origin && origin != UNKNOWN_FILE {
            return false;
        }
    }
    true
}

// Are two buffers an image with rows of `width` words, wherever its lines stand?
fn is_packed(contents: &[u16], bodies: &[u8], width: usize) -> bool
    requires { (3 ≤ width) × (width ≤ 4) }
    ensures { result ≡ is_packed_by width contents.now bodies.now }
{
    if contents.len() < 2 + width * MOST_ENTRIES {
        return false;
    }
    if bodies.len() < BODY_BYTES {
        return false;
    }
    let count = contents[0] as usize;
    if MOST_ENTRIES < count {
        return false;
    }
    let used = contents[1] as usize;
    if BODY_BYTES < used {
        return false;
    }
    rows_hold(contents, bodies, width, count, used)
}

// May a lookup go on? (Otherwise it is refused with 8.)
pub fn is_image(contents: &[u16], bodies: &[u8]) -> bool
    ensures { result ≡ is_image contents.now bodies.now }
{
    if !is_packed(contents, bodies, ROW_WORDS) {
        return false;
    }
    origins_hold(contents, contents[0] as usize)
}

// Is it an old image, whose rows do not say where a line stands?
pub fn is_old_image(contents: &[u16], bodies: &[u8]) -> bool
    ensures { result ≡ is_image_by old_row_words contents.now bodies.now }
{
    is_packed(contents, bodies, OLD_ROW_WORDS)
}

// Two lent buffers that are judged to hold an image. Each entry has its number, in the order of the rows.
#[derive(Clone, Copy)]
pub struct Image<'a> {
    pub contents: &'a [u16],
    pub bodies: &'a [u8],
    ghost judged: { is_image contents.now bodies.now ≡ true },
}

impl<'a> Image<'a> {
    // The buffers, judged: 8.
    pub fn new(contents: &'a [u16], bodies: &'a [u8]) -> Result<Image<'a>, Refusal>
        ensures { MatchResult result (λ image. (image.contents.now ≡ contents.now) × (image.bodies.now ≡ bodies.now) × (is_image contents.now bodies.now ≡ true)) (λ k. (k ≡ Refusal.NotAnImage) × (is_image contents.now bodies.now ≡ false)) }
    {
        if !is_image(contents, bodies) {
            return Err(Refusal::NotAnImage);
        }
        Ok(Image { contents, bodies })
    }

    // How many entries it has.
    pub fn count(&self) -> usize
        ensures { (result ≡ count_of self.now.contents.now) × (result ≤ most_entries) }
    {
        self.contents[0] as usize
    }

    // The row of entry `i`.
    // An entry's number stays a number, bounded by each contract: loops count it up to `count()`, and would build a type with the bound at each turn.
    pub fn row(&self, i: usize) -> Row
        requires { i < count_of self.now.contents.now }
        ensures { RowIs self.now.contents.now i result }
    {
        row_at(self.contents, i)
    }

    // The key of entry `i`.
    pub fn key(&self, i: usize) -> &'a [u8]
        requires { i < count_of self.now.contents.now }
        ensures { (result.now ≡ key_at self.now.bodies.now (row_at self.now.contents.now i)) × (is_key result.now ≡ true) × (length result.now ≤ body_bytes) }
    {
        let row = self.row(i);
        let start = row.start;
        let end = start + row.key;
        &self.bodies[start..end]
    }

    // The value of entry `i`.
    pub fn value(&self, i: usize) -> &'a [u8]
        requires { i < count_of self.now.contents.now }
        ensures { result.now ≡ value_at self.now.bodies.now (row_at self.now.contents.now i) }
    {
        let row = self.row(i);
        let start = row.start + row.key;
        let end = start + row.value;
        &self.bodies[start..end]
    }

    // Where the line of entry `i` stands.
    pub fn origin(&self, i: usize) -> usize
        requires { i < count_of self.now.contents.now }
        ensures { result ≡ origin_at self.now.contents.now i }
    {
        origin_at(self.contents, i)
    }
}
