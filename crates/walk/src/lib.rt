// A walk: the entries that align with a query, lowest number first, a step at a time. Document 02 (v).
#![tactic(auto)]

ghost use Rattle.std.specs.Prelude.{◌≡◌};
ghost use Rattle.definition.specs.Walking.{walk, walk_start, walk_step};
ghost use Rattle.walk.specs.Replies.{start_replied, step_replied};

use image_judge::Image;
use limits::{QUERY_BYTES, QUERY_PARTS};
use lookup::{first_entry, first_in};
use query::parse_both;
use refusal::Refusal;

// A walk begins: 8, 9, 10. Its next number is 0, and it keeps the image's entry count, which is given. A malformed query begins one too.
pub fn walk_start(
    contents: &[u16],
    bodies: &[u8],
    name: &[u8],
    class: &[u8],
) -> Result<u16, Refusal>
    ensures { start_replied result ≡ walk_start contents.now bodies.now name.now class.now }
{
    let image = Image::new(contents, bodies)?;
    let _parts = parse_both::<QUERY_BYTES, QUERY_PARTS>(name, class)?;
    Ok(image.count() as u16)
}

// A step in a judged image, for a walk whose steps are all taken in one call: each would judge the image again.
pub fn step_in(
    image: &Image,
    name: &[u8],
    class: &[u8],
    next: usize,
    count: usize,
) -> Result<Option<usize>, Refusal>
    ensures { step_replied result ≡ walk_step image.now.contents.now image.now.bodies.now name.now class.now (walk next count) }
{
    first_in(image, name, class, next, count)
}

// A step from any next number and count gives an entry's number, or none at the end: 8, 9, malformed, 10. A malformed query lists nothing.
pub fn walk_step(
    contents: &[u16],
    bodies: &[u8],
    name: &[u8],
    class: &[u8],
    next: usize,
    count: usize,
) -> Result<Option<usize>, Refusal>
    ensures { step_replied result ≡ walk_step contents.now bodies.now name.now class.now (walk next count) }
{
    first_entry(contents, bodies, name, class, next, count)
}
