// Where the parts of a board stand in its words and bytes, and these parts.
#![tactic(auto, unfolding(definition::specs::Board::lengths_start, definition::specs::Board::slot_start, definition::specs::Board::text_start, definition::specs::Board::body_start))]

ghost use Rattle.std.specs.Prelude.{◌≡◌, true, ◌≤◌, ◌<◌, length, get_or};
ghost use Rattle.definition.specs.Limits.{most_packs, most_queries, board_words, board_bytes};
ghost use Rattle.definition.specs.Board.{pack_count, query_count, lengths_start, slot_start, text_start, body_start, slot_at, name_length, class_length, query_at, have_room};

use limits::{BODY_BYTES, MOST_QUERIES, QUERY_BYTES, SLOT_WORDS};

// The lengths of query `q`.
pub fn lengths_start(q: usize) -> usize
    requires { q ≤ most_queries }
    ensures { result ≡ lengths_start q }
{
    2 + 2 * q
}

// Slot `i`: a pack's number, then its contents.
// Numbers of slots and of queries stay numbers with a bound in each contract: loops count them, and would build a type with the bound at each turn.
pub fn slot_start(i: usize) -> usize
    requires { i ≤ most_packs }
    ensures { result ≡ slot_start i }
{
    2 + 2 * MOST_QUERIES + SLOT_WORDS * i
}

// The name of query `q`, and its class behind it.
pub fn text_start(q: usize) -> usize
    requires { q ≤ most_queries }
    ensures { result ≡ text_start q }
{
    2 * QUERY_BYTES * q
}

// The bodies of the pack in slot `i`.
pub fn body_start(i: usize) -> usize
    requires { i ≤ most_packs }
    ensures { result ≡ body_start i }
{
    2 * QUERY_BYTES * MOST_QUERIES + BODY_BYTES * i
}

// Two lent buffers that are long enough for a board. A number of a slot or of a query is below what they have room for.
#[derive(Clone, Copy)]
pub struct Buffers<'a> {
    pub words: &'a [u16],
    pub bytes: &'a [u8],
    pub ghost words_long: { board_words ≤ length words.now },
    pub ghost bytes_long: { board_bytes ≤ length bytes.now },
}

// A pack as it lies in its slot.
#[derive(Clone, Copy)]
pub struct Slot<'a> {
    pub number: u16,
    pub contents: &'a [u16],
    pub bodies: &'a [u8],
}

// How many bytes the name and the class of a query have.
#[derive(Clone, Copy)]
pub struct Lengths {
    pub name: usize,
    pub class: usize,
}

// A watched query; its class stands behind its name.
#[derive(Clone, Copy)]
pub struct Watched<'a> {
    pub name: &'a [u8],
    pub class: &'a [u8],
}

impl<'a> Buffers<'a> {
    ghost use Rattle.board_layout.specs.Laid.{lent_of};

    // A word as a number.
    fn number_at(self, at: usize) -> usize
        requires { at < board_words }
        ensures { (result ≡ get_or self.entry.words.now at 0) × (result < 65536) }
    {
        self.words[at] as usize
    }

    // How many packs the words count.
    pub fn pack_count(self) -> usize
        ensures { (result ≡ pack_count (lent_of self.entry)) × (result < 65536) }
    {
        self.number_at(0)
    }

    // How many queries the words count.
    pub fn query_count(self) -> usize
        ensures { (result ≡ query_count (lent_of self.entry)) × (result < 65536) }
    {
        self.number_at(1)
    }

    // What lies in slot `i`.
    pub fn slot_at(self, i: usize) -> Slot<'a>
        requires { i < most_packs }
        ensures number { result.number ≡ get_or self.entry.words.now (slot_start i) 0 }
        ensures contents { result.contents.now ≡ (slot_at (lent_of self.entry) i).contents }
        ensures bodies { result.bodies.now ≡ (slot_at (lent_of self.entry) i).bodies }
    {
        let at = slot_start(i);
        let next = slot_start(i + 1);
        let first = body_start(i);
        let end = body_start(i + 1);
        Slot {
            number: self.words[at],
            contents: &self.words[at + 1..next],
            bodies: &self.bytes[first..end],
        }
    }

    // How long the name and the class of query `q` are.
    pub fn lengths_at(self, q: usize) -> Lengths
        requires { q < most_queries }
        ensures name { (result.name ≡ name_length (lent_of self.entry) q) × (result.name < 65536) }
        ensures class { (result.class ≡ class_length (lent_of self.entry) q) × (result.class < 65536) }
    {
        let at = lengths_start(q);
        Lengths {
            name: self.number_at(at),
            class: self.number_at(at + 1),
        }
    }

    // Query `q`.
    pub fn query_at(self, q: usize) -> Watched<'a>
        requires { (q < most_queries) × (have_room (lent_of self) q ≡ true) }
        ensures name { result.name.now ≡ (query_at (lent_of self.entry) q).name }
        ensures class { result.class.now ≡ (query_at (lent_of self.entry) q).class }
    {
        let lengths = self.lengths_at(q);
        let first = text_start(q);
        let second = first + lengths.name;
        let end = second + lengths.class;
        Watched {
            name: &self.bytes[first..second],
            class: &self.bytes[second..end],
        }
    }
}
