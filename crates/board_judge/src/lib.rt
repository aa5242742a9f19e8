// Do two lent buffers hold a board? Every call but the making asks this, so each image is judged once, where it lies.
#![tactic(auto)]

ghost use Rattle.std.specs.Prelude.{◌≡◌, true, ◌≤◌, ◌<◌, MatchResult};
ghost use Rattle.definition.specs.Lists.{all};
ghost use Rattle.definition.specs.Limits.{most_packs, most_queries};
ghost use Rattle.definition.specs.Board.{each, lent, pack_count, slot_at, short_board, are_slots, have_room, is_board};
ghost use Rattle.board_layout.specs.Laid.{lent_of};
ghost use Rattle.board_judge.specs.Slots.{has_number_from, slot_holds, turns_away};

use board_layout::{Buffers, Lengths};
use image_judge::{Image, is_image};
use limits::{BOARD_BYTES, BOARD_WORDS, MOST_PACKS, MOST_QUERIES, QUERY_BYTES};
use refusal::Refusal;

// Are the buffers too short for a board? (Number 1.)
pub fn is_short(words: &[u16], bytes: &[u8]) -> bool
    ensures { result ≡ short_board (lent words.now bytes.now) }
{
    words.len() < BOARD_WORDS || bytes.len() < BOARD_BYTES
}

// Has a pack that number, in the slots from `from` on and below `last`?
pub fn has_number(buffers: Buffers<'_>, number: u16, from: usize, last: usize) -> bool
    requires { last ≤ most_packs }
    ensures { result ≡ has_number_from buffers.entry.words.now number from last }
{
    for i in from..last {
        if buffers.slot_at(i).number == number {
            return true;
        }
    }
    false
}

// Slot `i` of `count`: its number is not zero and none behind it has it, and it holds an image.
// Zero stands for no pack that is absent: it is a number that the definition's `are_slots` refuses, as `board`'s calls do.
fn is_slot(buffers: Buffers<'_>, i: usize, count: usize) -> bool
    requires { (i < count) × (count ≤ most_packs) }
    ensures { result ≡ slot_holds (lent_of buffers.entry) i count }
{
    let slot = buffers.slot_at(i);
    if slot.number == 0 {
        return false;
    }
    if has_number(buffers, slot.number, i + 1, count) {
        return false;
    }
    is_image(slot.contents, slot.bodies)
}

fn are_slots(buffers: Buffers<'_>, count: usize) -> bool
    requires { count ≤ most_packs }
    ensures { result ≡ are_slots (each (slot_at (lent_of buffers.entry)) 0 count) }
{
    for i in 0..count {
        if !is_slot(buffers, i, count) {
            return false;
        }
    }
    true
}

// Are the texts of each query no longer than a query's may be?
fn have_room(buffers: Buffers<'_>, count: usize) -> bool
    requires { count ≤ most_queries }
    ensures { result ≡ all (have_room (lent_of buffers.entry)) (each (λ q. q) 0 count) }
{
    for q in 0..count {
        let Lengths { name, class } = buffers.lengths_at(q);
        if QUERY_BYTES < name {
            return false;
        }
        if QUERY_BYTES < class {
            return false;
        }
    }
    true
}

// Do buffers that are long enough hold a board?
fn holds_board(buffers: Buffers<'_>) -> bool
    ensures { result ≡ is_board (lent_of buffers.entry) }
{
    let packs = buffers.pack_count();
    if MOST_PACKS < packs {
        return false;
    }
    let queries = buffers.query_count();
    if MOST_QUERIES < queries {
        return false;
    }
    if !are_slots(buffers, packs) {
        return false;
    }
    have_room(buffers, queries)
}

// May a call go on? (Otherwise it is refused with 1 or 8.)
pub fn is_board(words: &[u16], bytes: &[u8]) -> bool
    ensures { result ≡ is_board (lent words.now bytes.now) }
{
    !is_short(words, bytes) && holds_board(Buffers { words, bytes })
}

// Two lent buffers that hold a board: every call but the making goes on with one.
#[derive(Clone, Copy)]
pub struct Board<'a> {
    pub buffers: Buffers<'a>,
    pub ghost is_one: { is_board (lent buffers.words.now buffers.bytes.now) ≡ true },
}

impl<'a> Board<'a> {
    // Refused by 1 if the buffers are too short, and by 8 if they hold none.
    pub fn new(words: &'a [u16], bytes: &'a [u8]) -> Result<Board<'a>, Refusal>
        ensures { MatchResult result (λ board. lent_of board.buffers ≡ lent words.now bytes.now) (turns_away (lent words.now bytes.now)) }
    {
        if is_short(words, bytes) {
            return Err(Refusal::ShortBuffers);
        }
        if !is_board(words, bytes) {
            return Err(Refusal::NotAnImage);
        }
        let buffers = Buffers { words, bytes };
        Ok(Board { buffers })
    }

    // The image of the pack in slot `i`, which was judged with the board.
    pub fn image(self, i: usize) -> Image<'a>
        requires { i < pack_count (lent_of self.buffers) }
        ensures { (result.contents.now ≡ (slot_at (lent_of self.entry.buffers) i).contents) × (result.bodies.now ≡ (slot_at (lent_of self.entry.buffers) i).bodies) }
    {
        let slot = self.buffers.slot_at(i);
        Image {
            contents: slot.contents,
            bodies: slot.bodies,
        }
    }
}
