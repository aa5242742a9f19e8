// The texts of a reading: whether one is too long, and all of them read one after another.
#![tactic(auto)]

ghost use Rattle.std.specs.Prelude.{◌≡◌, map};
ghost use Rattle.definition.specs.Lists.{any};
ghost use Rattle.definition.specs.Archive.{files_of};
ghost use Rattle.definition.specs.Reading.{met, too_long};
ghost use Rattle.image.specs.Running.{world, begun, run, answered};

use archive::Archive;
use byte_classes::Classes;
use image::Totals;
use includes::parse_text;
use limits::{BODY_BYTES, CONTENTS_WORDS, TEXT_BYTES};
use refusal::Refusal;

// Is a text longer than a text may be?
pub fn is_long(texts: &[&[u8]]) -> bool
    ensures { result ≡ any too_long (map (λ x. x.now) texts.now) }
{
    texts.iter().any(|text| text.len() > TEXT_BYTES)
}

// Reads the texts one after another at that depth, each in the empty folder.
pub fn parse_texts(
    texts: &[&[u8]],
    archive: Archive<'_>,
    depth: u64,
    words: &mut [u16; CONTENTS_WORDS],
    store: &mut [u8; BODY_BYTES],
) -> Result<Totals, Refusal>
    ensures { answered result words.new store.new ≡ run (files_of archive.entry.bytes.now) (world begun words.old store.old) (met depth (map (λ x. x.now) texts.now) archive.entry.bytes.now) }
{
    let classes = Classes::new();
    let mut s = Totals {
        opens: 0,
        entries: 0,
        used: 0,
    };
    for text in texts {
        let next = parse_text(&classes, text, archive, depth, s, words, store)?;
        // field by field: a copy of the whole would load two fields that were just stored in one load, and wait for them
        let opens = next.opens;
        let entries = next.entries;
        let used = next.used;
        s = Totals {
            opens,
            entries,
            used,
        };
    }
    Ok(s)
}
