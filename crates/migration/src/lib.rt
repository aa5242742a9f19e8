// Carrying an old image over into new buffers, without reading again: the rows of an old image do not say where a line stands.
#![tactic(auto)]

ghost use Rattle.std.specs.Prelude.{◌≡◌, true, ◌≤◌, length};
ghost use Rattle.definition.specs.Limits.{old_row_words, contents_words, body_bytes};
ghost use Rattle.definition.specs.Image.{rows_by, count_of, is_image_by};
ghost use Rattle.definition.specs.Reading.{outcome, accepted};
ghost use Rattle.definition.specs.Writing.{entries_by};
ghost use Rattle.definition.specs.Migration.{carried, migrating};
ghost use Rattle.image.specs.Rows.{row_start_by, row_start};
ghost use Rattle.reader.specs.Said.{said};
ghost use Rattle.migration.specs.Carrying.{with_rows};

use copies::copy_in;
use image::{Totals, close_image, row_by, write_row};
use image_judge::is_old_image;
use limits::{BODY_BYTES, CONTENTS_WORDS, OLD_ROW_WORDS, UNKNOWN_FILE};
use reader::Accepted;
use refusal::Refusal;

// Writes the rows of an old image, of files that nobody knows.
fn carry_rows(old: &[u16], count: usize, words: &mut [u16])
    requires { (row_start_by old_row_words count ≤ length old.now) × (row_start count ≤ length words.old) }
    ensures { words.new ≡ with_rows count old.now words.old }
{
    for i in 0..count {
        let row = row_by(old, OLD_ROW_WORDS, i);
        write_row(words, i, row, UNKNOWN_FILE as u16);
    }
}

// Carries an old image over into buffers that are just as long as an image.
fn carry(old_contents: &[u16], old_bodies: &[u8], words: &mut [u16], store: &mut [u8])
    requires { (is_image_by old_row_words old_contents.now old_bodies.now ≡ true) × (length words.old ≡ contents_words) × (length store.old ≡ body_bytes) }
    ensures { outcome (accepted (count_of old_contents.now) 0) words.new store.new ≡ carried (entries_by old_row_words old_contents.now old_bodies.now) words.old store.old }
{
    let entries = old_contents[0] as usize;
    let used = old_contents[1] as usize;
    carry_rows(old_contents, entries, words);
    copy_in(&old_bodies[..used], store, 0);
    let totals = Totals {
        opens: 0,
        entries,
        used,
    };
    close_image(totals, words, store);
}

// Carries an old image over: 8, then 1. A refusal leaves both buffers as they are.
pub fn migrate(
    old_contents: &[u16],
    old_bodies: &[u8],
    contents: &mut [u16],
    bodies: &mut [u8],
) -> Result<Accepted, Refusal>
    ensures { outcome (said result) contents.new bodies.new ≡ migrating old_contents.now old_bodies.now contents.old bodies.old }
{
    if !is_old_image(old_contents, old_bodies) {
        return Err(Refusal::NotAnImage);
    }
    if contents.len() < CONTENTS_WORDS {
        return Err(Refusal::ShortBuffers);
    }
    if bodies.len() < BODY_BYTES {
        return Err(Refusal::ShortBuffers);
    }
    carry(
        old_contents,
        old_bodies,
        &mut contents[..CONTENTS_WORDS],
        &mut bodies[..BODY_BYTES],
    );
    Ok(Accepted {
        entries: old_contents[0] as usize,
        opens: 0,
    })
}
