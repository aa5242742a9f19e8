// A database written out as a text: document 02 (iv).
#![tactic(auto)]

ghost use Rattle.std.specs.Prelude.{◌≡◌, ◌≤◌, leb, length};
ghost use Rattle.definition.specs.Writing.{image_text, filled, writing};
ghost use Rattle.copies.specs.Appended.{Appends};
ghost use Rattle.writer.specs.Extents.{extent_of};

use entry_text::{begins_blank, escapes_in, write_entry};
use image_judge::Image;
use refusal::Refusal;

// How long the text of an image is. Nothing of a key is escaped, so all bytes used are counted at once; three more bytes stand for each
// entry, and a backslash before each value that begins with a blank.
fn text_length(image: &Image) -> usize
    ensures { result ≡ length (image_text image.now.contents.now image.now.bodies.now) }
{
    let count = image.count();
    let used = image.contents[1] as usize;
    let mut size = 3 * count + used + escapes_in(&image.bodies[..used]);
    for i in 0..count {
        size += usize::from(begins_blank(image.value(i)));
    }
    size
}

// Has a buffer of `room` bytes room for the text of an image? Mostly it has room for the longest text that so many entries and bytes
// may have, and nothing is counted.
fn has_room(image: &Image, room: usize) -> bool
    ensures { result ≡ leb (length (image_text image.now.contents.now image.now.bodies.now)) room }
{
    let count = image.count();
    let used = image.contents[1] as usize;
    if 2 * used + count <= room {
        return true;
    }
    text_length(image) <= room
}

// Writes the text of an image: how long it is.
fn write_entries(image: &Image, text: &mut [u8]) -> usize
    requires { length (image_text image.now.contents.now image.now.bodies.now) ≤ length text.old }
    ensures { Appends (image_text image.now.contents.now image.now.bodies.now) text.old 0 text.new result }
{
    let mut size = 0;
    for i in 0..image.count() {
        size = write_entry(image.key(i), image.value(i), text, size);
    }
    size
}

// Writes the entries of a database image as a text at the front of `text`: 8, 11, with `text` as it was. Bytes past the text stay.
pub fn write(contents: &[u16], bodies: &[u8], text: &mut [u8]) -> Result<usize, Refusal>
    ensures { filled (extent_of result) text.new ≡ writing contents.now bodies.now text.old }
{
    let image = Image::new(contents, bodies)?;
    if !has_room(&image, text.len()) {
        return Err(Refusal::ShortText);
    }
    Ok(write_entries(&image, text))
}
