// The buyer's third term as a call: one query, asked with a file on the archive and with it struck off.
#![tactic(auto)]

ghost use Rattle.std.specs.Prelude.{map};
ghost use Rattle.compare.specs.Comparing.{asked, leaving, Promise};

use archive::Archive;
use comparison::{Both, look_up_both};
use limits::{BODY_BYTES, CONTENTS_WORDS};
use reader::read_texts;
use reader_without::read_without;
use refusal::Refusal;

// Reads the texts with the archive, and again at the same depth with one file struck off (files are counted from 0), and looks the query up
// in both.
// `struck` is room for the archive without the file. `None`: the archive has no such file.
pub fn compare_without(
    texts: &[&[u8]],
    archive: &[u8],
    depth: u64,
    file: usize,
    name: &[u8],
    class: &[u8],
    struck: &mut [u8],
    contents: &mut [u16],
    bodies: &mut [u8],
    contents_without: &mut [u16],
    bodies_without: &mut [u8],
) -> Result<Option<Both>, Refusal>
    ensures { Promise (asked depth (map (λ x. x.now) texts.now) archive.now file name.now class.now contents.old bodies.old contents_without.old bodies_without.old) struck.old (leaving result struck.new contents.new bodies.new contents_without.new bodies_without.new) }
{
    if struck.len() < archive.len() {
        return Err(Refusal::ShortBuffers);
    }
    if contents_without.len() < CONTENTS_WORDS {
        return Err(Refusal::ShortBuffers);
    }
    if bodies_without.len() < BODY_BYTES {
        return Err(Refusal::ShortBuffers);
    }
    read_texts(texts, archive, depth, contents, bodies)?;
    // what was read with is an archive
    let judged = Archive { bytes: archive };
    if file >= judged.count() {
        return Ok(None);
    }
    let second = read_without(
        texts,
        judged,
        depth,
        file,
        struck,
        contents_without,
        bodies_without,
    );
    let both = look_up_both(
        contents,
        bodies,
        contents_without,
        bodies_without,
        name,
        class,
        second,
    )?;
    Ok(Some(both))
}
