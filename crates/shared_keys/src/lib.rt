// Entries of two images with equal keys. Document 02 (vii).
#![tactic(auto)]

ghost use Rattle.std.specs.Prelude.{◌≡◌, true, ◌<◌, drop};
ghost use Rattle.definition.specs.Image.{key_parts, count_of, is_key};
ghost use Rattle.definition.specs.Writing.{entries_of_image};
ghost use Rattle.definition.specs.Walking.{first_of};
ghost use Rattle.definition.specs.Orders.{numbers_with, next_with_key};
ghost use Rattle.shared_keys.specs.Replies.{shared_replied};

use image_judge::Image;

// The first entry with that key, from `next` on.
fn next_with(image: &Image, key: &[u8], next: usize) -> Option<usize>
    requires { is_key key.now ≡ true }
    ensures { shared_replied result ≡ first_of (numbers_with next (key_parts key.now) (drop next (entries_of_image image.now.contents.now image.now.bodies.now))) }
{
    for j in next..image.count() {
        if key == image.key(j) {
            return Some(j);
        }
    }
    None
}

// The first entry of the second image with the key of entry `i` of the first, from `next` on.
pub fn next_shared(image: &Image, i: usize, other: &Image, next: usize) -> Option<usize>
    requires { i < count_of image.now.contents.now }
    ensures { shared_replied result ≡ next_with_key (entries_of_image image.now.contents.now image.now.bodies.now) i (entries_of_image other.now.contents.now other.now.bodies.now) next }
{
    next_with(other, image.key(i), next)
}
