// The reading call.
#![tactic(auto)]

ghost use Rattle.std.specs.Prelude.{◌≡◌, [], ◌∷◌, map};
ghost use Rattle.definition.specs.Reading.{outcome, reading};
ghost use Rattle.image.specs.Running.{answered, finished};
ghost use Rattle.reader.specs.Said.{said, Ready, left_by};

use archive::Archive;
use image::{Totals, close_image, empty_image};
use limits::{BODY_BYTES, CONTENTS_WORDS, GREATEST_DEPTH};
use refusal::Refusal;
use texts::{is_long, parse_texts};

// What a reading that is not refused has: its entries and its opens.
#[derive(Clone, Copy)]
pub struct Accepted {
    pub entries: usize,
    pub opens: usize,
}

// Closes the buffers that a reading has written, and answers.
fn finish(
    read: Result<Totals, Refusal>,
    words: &mut [u16],
    store: &mut [u8],
) -> Result<Accepted, Refusal>
    requires { Ready read words.old store.old }
    ensures { outcome (said result) words.new store.new ≡ finished (answered read words.old store.old) }
{
    match read {
        Ok(totals) => {
            close_image(totals, words, store);
            Ok(Accepted {
                entries: totals.entries,
                opens: totals.opens,
            })
        }
        Err(refusal) => {
            empty_image(words, store);
            Err(refusal)
        }
    }
}

// Reads into buffers that are just as long as an image.
fn fill(
    texts: &[&[u8]],
    archive: Archive<'_>,
    depth: u64,
    words: &mut [u16; CONTENTS_WORDS],
    store: &mut [u8; BODY_BYTES],
) -> Result<Accepted, Refusal>
    ensures { outcome (said result) words.new store.new ≡ left_by depth (map (λ x. x.now) texts.now) archive.entry.bytes.now words.old store.old }
{
    let read = parse_texts(texts, archive, depth, words, store);
    finish(read, words, store)
}

// Reads a list of texts with an archive into a database image: document 01's reading call, over the texts of document 02 (i) and at the
// depth of document 02 (x).
pub fn read_texts(
    texts: &[&[u8]],
    archive: &[u8],
    depth: u64,
    contents: &mut [u16],
    bodies: &mut [u8],
) -> Result<Accepted, Refusal>
    ensures { outcome (said result) contents.new bodies.new ≡ reading depth (map (λ x. x.now) texts.now) archive.now contents.old bodies.old }
{
    let Some(words) = contents.first_chunk_mut::<CONTENTS_WORDS>() else {
        return Err(Refusal::ShortBuffers);
    };
    let Some(store) = bodies.first_chunk_mut::<BODY_BYTES>() else {
        return Err(Refusal::ShortBuffers);
    };
    if is_long(texts) {
        return Err(Refusal::LongText);
    }
    let judged = Archive::new(archive)?;
    if depth > GREATEST_DEPTH {
        return Err(Refusal::GreatDepth);
    }
    fill(texts, judged, depth, words, store)
}

// Reads a main text: the list of one.
pub fn read<'a>(
    text: &'a [u8],
    archive: &[u8],
    depth: u64,
    contents: &mut [u16],
    bodies: &mut [u8],
) -> Result<Accepted, Refusal>
    ensures { outcome (said result) contents.new bodies.new ≡ reading depth (text.now ∷ []) archive.now contents.old bodies.old }
{
    let texts: [&'a [u8]; 1] = [text];
    read_texts(&texts, archive, depth, contents, bodies)
}
