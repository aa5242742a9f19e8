// Lookups: `match_entry` and `Database::get_bytes` of the Rust.
#![tactic(auto)]

ghost use Rattle.std.specs.Prelude.{◌≡◌, true, false, ℕ, ◌≤◌, ◌<◌, min, max, length, IfSome, Ok};
ghost use Rattle.definition.specs.Limits.{body_bytes};
ghost use Rattle.definition.specs.Image.{count_of, key_parts, is_key};
ghost use Rattle.definition.specs.Query.{query_within, query_of, shell, window};
ghost use Rattle.definition.specs.Ranking.{rank_of};
ghost use Rattle.definition.specs.Lookup.{get_bytes_within, get_bytes};
ghost use Rattle.query.specs.Splits.{SplitIn, starts_of, lengths_of};
ghost use Rattle.marks.specs.Rows.{marks_of, best_in, wins_over};
ghost use Rattle.positions.specs.Parts.{queried, positions_in};
ghost use Rattle.lookup.specs.Replies.{replied, entry_replied, found_reply, FoundBelow};
ghost use Rattle.lookup.specs.Searches.{considered, row_of, Begun, Holds, found_or, searched_after, searched_in, number_or, entry_in, entry_within, value_in};

use image_judge::Image;
use key_end::may_match;
use limits::{QUERY_BYTES, QUERY_PARTS, WINDOW_BYTES, WINDOW_PARTS};
use marks::{Marks, no_row, wins};
use matcher::match_key;
use positions::{count_positions, last_part};
use query::{Names, Split, both, parse_both, parse_query};
use refusal::Refusal;

// Where a value lies in the bodies.
#[derive(Clone, Copy)]
pub struct Place {
    pub start: usize,
    pub size: usize,
}

// Does an entry with that key beat those passed so far? Then its row is held.
fn consider(key: &[u8], name: &Names, class: &Names, held: &mut Marks) -> bool
    requires { (is_key key.now ≡ true) × (length key.now ≤ body_bytes) }
    ensures { (result ≡ wins_over (marks_of (rank_of (key_parts key.now) (positions_in name.now class.now))) held.old) × (held.new ≡ considered (rank_of (key_parts key.now) (positions_in name.now class.now)) held.old) }
{
    let marks = match_key(key, name, class);
    if wins(marks, *held) {
        *held = marks;
        return true;
    }
    false
}

// Of the entries from `next` on and below `last`, after those whose best row is held: the one that beats all of these, or the first that aligns. Its
// row is then held. The one search for the shell's queries, the dictionary window's, and the packs of a board.
pub fn search(
    image: &Image,
    name: &Names,
    class: &Names,
    next: usize,
    last: usize,
    first: bool,
    held: &mut Marks,
) -> Option<usize>
    requires { (last ≤ count_of image.now.contents.now) × Begun first (max (length name.now.starts.now) (length class.now.starts.now)) held.old }
    ensures number { found_or last result ≡ number_or last (searched_after (best_in (max (length name.now.starts.now) (length class.now.starts.now)) last held.old) first next last image.now.contents.now image.now.bodies.now (positions_in name.now class.now)) }
    ensures below { IfSome result (λ i. i < last) }
    ensures held { held.new ≡ marks_of (row_of (searched_after (best_in (max (length name.now.starts.now) (length class.now.starts.now)) last held.old) first next last image.now.contents.now image.now.bodies.now (positions_in name.now class.now))) }
    ensures holds { Holds (max (length name.now.starts.now) (length class.now.starts.now)) (found_or last result) held.new (searched_after (best_in (max (length name.now.starts.now) (length class.now.starts.now)) last held.old) first next last image.now.contents.now image.now.bodies.now (positions_in name.now class.now)) }
{
    // Copied, they stay in registers: what is held is written between two entries.
    let image = *image;
    let len = count_positions(name, class);
    let n = last_part(name, len);
    let c = last_part(class, len);
    let mut found = None;
    for i in next..last {
        let key = image.key(i);
        // Few keys end as the query does. For the others nothing is copied.
        if may_match(key, n, c) {
            if consider(key, name, class, held) {
                found = Some(i);
                if first {
                    return found;
                }
            }
        }
    }
    found
}

// The same for a query whose parts are held by value.
fn match_entry<const PARTS: usize>(
    image: &Image,
    name: &[u8],
    names: Split<PARTS>,
    class: &[u8],
    classes: Split<PARTS>,
    next: usize,
    last: usize,
    first: bool,
) -> Option<usize>
    requires { SplitIn name.now names × SplitIn class.now classes × (last ≤ count_of image.now.contents.now) }
    ensures number { found_or last result ≡ number_or last (searched_in first next last image.now.contents.now image.now.bodies.now (queried name.now (starts_of names.entry) (lengths_of names.entry) class.now (starts_of classes.entry) (lengths_of classes.entry))) }
    ensures below { IfSome result (λ i. i < last) }
{
    let n = names.names(name);
    let c = classes.names(class);
    let mut held = no_row();
    search(image, &n, &c, next, last, first, &mut held)
}

// The entry that a query of the shell finds: 9, malformed, 10.
fn find_entry(
    image: &Image,
    name: &[u8],
    class: &[u8],
    next: usize,
    last: usize,
    first: bool,
) -> Result<Option<usize>, Refusal>
    requires { last ≤ count_of image.now.contents.now }
    ensures found { entry_replied result ≡ entry_in first next last image.now.contents.now image.now.bodies.now (query_of name.now class.now) }
    ensures below { FoundBelow last result }
{
    let Some((names, classes)) = parse_both::<QUERY_BYTES, QUERY_PARTS>(name, class)? else {
        return Ok(None);
    };
    Ok(match_entry(image, name, names, class, classes, next, last, first))
}

// The same of the dictionary window, in all entries. It stays beside the shell's, whose split query document 01 names by value: by value the parts
// would stand on the stack twice, of which the window's has little.
fn find_lent(image: &Image, name: &[u8], class: &[u8]) -> Result<Option<usize>, Refusal>
    ensures found { entry_replied result ≡ entry_in false 0 (count_of image.now.contents.now) image.now.contents.now image.now.bodies.now (query_within window name.now class.now) }
    ensures below { FoundBelow (count_of image.now.contents.now) result }
{
    let mut names = Split::new();
    let mut classes = Split::new();
    let a = parse_query::<WINDOW_BYTES, WINDOW_PARTS>(name, &mut names);
    let b = parse_query::<WINDOW_BYTES, WINDOW_PARTS>(class, &mut classes);
    let Some(_) = both(a, b)? else {
        return Ok(None);
    };
    let name = names.names(name);
    let class = classes.names(class);
    let last = image.count();
    let mut held = no_row();
    Ok(search(image, &name, &class, 0, last, false, &mut held))
}

// The value of an entry that a search found.
#[tactic(auto, unfolding(crate::specs::Searches::value_in))]
fn value_of(image: &Image, found: Option<usize>) -> Option<Place>
    requires { IfSome found (λ i. i < count_of image.now.contents.now) }
    ensures { replied (Ok result) ≡ value_in image.now.contents.now (found_reply found) }
{
    let Some(i) = found else {
        return None;
    };
    let row = image.row(i);
    Some(Place {
        start: row.start + row.key,
        size: row.value,
    })
}

// The shell's lookup, at the bounds of document 01: 8, 9, malformed, 10. The image is judged before the search, and not on top of its stack.
pub fn get_bytes(
    contents: &[u16],
    bodies: &[u8],
    name: &[u8],
    class: &[u8],
) -> Result<Option<Place>, Refusal>
    ensures { replied result ≡ get_bytes contents.now bodies.now name.now class.now }
{
    let image = Image::new(contents, bodies)?;
    let last = image.count();
    let found = find_entry(&image, name, class, 0, last, false)?;
    Ok(value_of(&image, found))
}

// The dictionary window's, which has little stack: document 02 (vi).
pub fn window_get_bytes(
    contents: &[u16],
    bodies: &[u8],
    name: &[u8],
    class: &[u8],
) -> Result<Option<Place>, Refusal>
    ensures { replied result ≡ get_bytes_within window contents.now bodies.now name.now class.now }
{
    let image = Image::new(contents, bodies)?;
    let found = find_lent(&image, name, class)?;
    Ok(value_of(&image, found))
}

// The first entry of a judged image that aligns with a query, from `next` on and below both `count` and the image's own count.
pub fn first_in(
    image: &Image,
    name: &[u8],
    class: &[u8],
    next: usize,
    count: usize,
) -> Result<Option<usize>, Refusal>
    ensures { entry_replied result ≡ entry_within shell true next count image.now.contents.now image.now.bodies.now name.now class.now }
{
    let last = count.min(image.count());
    find_entry(image, name, class, next, last, true)
}

// The same of two lent buffers, which are judged first: 8.
pub fn first_entry(
    contents: &[u16],
    bodies: &[u8],
    name: &[u8],
    class: &[u8],
    next: usize,
    count: usize,
) -> Result<Option<usize>, Refusal>
    ensures { entry_replied result ≡ entry_within shell true next count contents.now bodies.now name.now class.now }
{
    let image = Image::new(contents, bodies)?;
    first_in(&image, name, class, next, count)
}
