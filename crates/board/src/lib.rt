// A board of packs: made, a query watched, a pack that arrives or leaves. Document 02 (ix).
#![tactic(auto)]

ghost use Rattle.std.specs.Prelude.{◌≡◌, true, false, ◌≤◌, ◌<◌, length, MatchOption, MatchResult};
ghost use Rattle.definition.specs.Limits.{query_bytes, most_packs, most_queries, board_words};
ghost use Rattle.definition.specs.Image.{is_image};
ghost use Rattle.definition.specs.Query.{query_of};
ghost use Rattle.definition.specs.Board.{watch, arrive, leave, checked, lent, pack_count, query_count, done, board_make, writing, board_call};
ghost use Rattle.board_layout.specs.Laid.{lent_of};
ghost use Rattle.board_judge.specs.Slots.{has_number_from};
ghost use Rattle.board.specs.Replies.{replied, left, Long, before_number, dropped};

use board_judge::{Board, has_number, is_short};
use board_layout::{body_start, lengths_start, slot_start, text_start};
use copies::copy_in;
use image_judge::Image;
use limits::{MOST_PACKS, MOST_QUERIES, QUERY_BYTES, QUERY_PARTS, ROW_WORDS};
use moves::{copy_words, move_bytes, move_words};
use query::parse_both;
use refusal::Refusal;

// Each call answers a query's number, or why it is refused. The others answer 0, since the definition's answer (`given`) is a number for each call.
// The writers take the buffers apart: a struct of two `&mut` would want in each contract that either reference keeps its ghost name.
// A pack's number, contents and bodies stay apart too, as `resource_manager_board_arrive` is lent them.

// Makes an empty board: 1. What lies behind the first two words is written before it is read.
pub fn make(words: &mut [u16], bytes: &mut [u8]) -> Result<usize, Refusal>
    ensures { done (replied result) (lent words.new bytes.new) ≡ board_make (lent words.old bytes.old) }
{
    if is_short(words, bytes) {
        return Err(Refusal::ShortBuffers);
    }
    words[0] = 0;
    words[1] = 0;
    Ok(0)
}

// Is a query admitted, as in a lookup? `number` if it is, malformed or not; else 9 or 10.
fn check_query(name: &[u8], class: &[u8], number: usize) -> Result<usize, Refusal>
    ensures { replied result ≡ checked number (query_of name.now class.now) }
{
    let _ = parse_both::<QUERY_BYTES, QUERY_PARTS>(name, class)?;
    Ok(number)
}

// Writes query `q` behind those that are there.
#[tactic(auto, unfolding(definition::specs::Board::lengths_start, definition::specs::Board::text_start))]
fn keep_query(words: &mut [u16], bytes: &mut [u8], q: usize, name: &[u8], class: &[u8])
    requires { Long words.old bytes.old × (q ≡ query_count (lent words.old bytes.old)) × (q < most_queries) × (length name.now ≤ query_bytes) × (length class.now ≤ query_bytes) }
    ensures { lent words.new bytes.new ≡ writing (watch (record { name = name.entry.now; class = class.now })) (lent words.old bytes.old) }
{
    let at = lengths_start(q);
    words[at] = name.len() as u16;
    words[at + 1] = class.len() as u16;
    words[1] = (q + 1) as u16;
    let first = text_start(q);
    let second = first + name.len();
    copy_in(name, bytes, first);
    copy_in(class, bytes, second);
}

// What the watching of a query answers: 1, 8, 13, then 9, malformed (kept), 10.
fn watch_reply(words: &[u16], bytes: &[u8], name: &[u8], class: &[u8]) -> Result<usize, Refusal>
    ensures { replied result ≡ (board_call (watch (record { name = name.entry.now; class = class.now })) (lent words.now bytes.now)).answer }
{
    let board = Board::new(words, bytes)?;
    let q = board.buffers.query_count();
    if MOST_QUERIES <= q {
        return Err(Refusal::FullBoard);
    }
    check_query(name, class, q)
}

// Watches a query. A refusal leaves the board as it is.
pub fn watch(
    words: &mut [u16],
    bytes: &mut [u8],
    name: &[u8],
    class: &[u8],
) -> Result<usize, Refusal>
    ensures { done (replied result) (lent words.new bytes.new) ≡ board_call (watch (record { name = name.entry.now; class = class.now })) (lent words.old bytes.old) }
{
    let q = watch_reply(words, bytes, name, class)?;
    keep_query(words, bytes, q, name, class);
    Ok(q)
}

// What an arrival answers: 1, 8, for the image too, 13, 14.
fn arrive_reply(
    words: &[u16],
    bytes: &[u8],
    number: u16,
    contents: &[u16],
    bodies: &[u8],
) -> Result<usize, Refusal>
    ensures { replied result ≡ (board_call (arrive (record { number = number; contents = contents.now; bodies = bodies.now })) (lent words.now bytes.now)).answer }
{
    let board = Board::new(words, bytes)?;
    let _ = Image::new(contents, bodies)?;
    let packs = board.buffers.pack_count();
    if MOST_PACKS <= packs {
        return Err(Refusal::FullBoard);
    }
    if number == 0 || has_number(board.buffers, number, 0, packs) {
        return Err(Refusal::PackNumber);
    }
    Ok(0)
}

// Writes a pack into slot `i`, behind those that are there: of its image what is used.
#[tactic(auto, unfolding(definition::specs::Board::slot_start, definition::specs::Board::body_start))]
fn keep_pack(
    words: &mut [u16],
    bytes: &mut [u8],
    i: usize,
    number: u16,
    contents: &[u16],
    bodies: &[u8],
)
    requires { Long words.old bytes.old × (i ≡ pack_count (lent words.old bytes.old)) × (i < most_packs) × (is_image contents.now bodies.now ≡ true) }
    ensures { lent words.new bytes.new ≡ writing (arrive (record { number = number; contents = contents.now; bodies = bodies.now })) (lent words.old bytes.old) }
{
    let at = slot_start(i);
    let rows = 2 + ROW_WORDS * contents[0] as usize;
    let used = contents[1] as usize;
    words[at] = number;
    copy_words(&contents[..rows], words, at + 1);
    words[0] = (i + 1) as u16;
    let first = body_start(i);
    copy_in(&bodies[..used], bytes, first);
}

// A pack arrives last. A refusal leaves the board as it is.
pub fn arrive(
    words: &mut [u16],
    bytes: &mut [u8],
    number: u16,
    contents: &[u16],
    bodies: &[u8],
) -> Result<usize, Refusal>
    ensures { done (replied result) (lent words.new bytes.new) ≡ board_call (arrive (record { number = number; contents = contents.now; bodies = bodies.now })) (lent words.old bytes.old) }
{
    let n = arrive_reply(words, bytes, number, contents, bodies)?;
    let i = words[0] as usize;
    keep_pack(words, bytes, i, number, contents, bodies);
    Ok(n)
}

// The slot of the pack with that number.
#[tactic(auto, unfolding(definition::specs::Board::slot_start))]
fn slot_of(words: &[u16], number: u16, count: usize) -> Option<usize>
    requires { (count ≤ most_packs) × (board_words ≤ length words.now) }
    ensures { MatchOption result (has_number_from words.now number 0 count ≡ false) (λ i. (has_number_from words.now number 0 count ≡ true) × (i ≡ before_number words.now number count)) }
{
    for i in 0..count {
        let there = words[slot_start(i)];
        if there == number {
            return Some(i);
        }
    }
    None
}

// How many slots stand before that of a pack, or how many there are.
pub fn slots_before(words: &[u16], number: u16, count: usize) -> usize
    requires { (count ≤ most_packs) × (board_words ≤ length words.now) }
    ensures { result ≡ before_number words.now number count }
{
    slot_of(words, number, count).unwrap_or(count)
}

// The slot of the pack that leaves: 14, after what the judging of the board refuses.
pub fn leaving_slot(board: Board<'_>, number: u16) -> Result<usize, Refusal>
    ensures reply { left result ≡ (board_call (leave number) (lent_of board.entry.buffers)).answer }
    ensures slot { MatchResult result (λ i. i ≡ before_number board.entry.buffers.words.now number (pack_count (lent_of board.entry.buffers))) (λ k. k ≡ Refusal.PackNumber) }
{
    if number == 0 {
        return Err(Refusal::PackNumber);
    }
    slot_of(board.buffers.words, number, board.buffers.pack_count()).ok_or(Refusal::PackNumber)
}

// What a leaving answers: 1, 8, 14.
pub fn leave_reply(words: &[u16], bytes: &[u8], number: u16) -> Result<usize, Refusal>
    ensures { replied result ≡ (board_call (leave number) (lent words.now bytes.now)).answer }
{
    let board = Board::new(words, bytes)?;
    let _ = leaving_slot(board, number)?;
    Ok(0)
}

// Takes slot `i` of `count` out: those behind it move up.
#[tactic(auto, unfolding(definition::specs::Board::slot_start, definition::specs::Board::body_start))]
fn drop_slot(words: &mut [u16], bytes: &mut [u8], i: usize, count: usize)
    requires { Long words.old bytes.old × (i < count) × (count ≤ most_packs) }
    ensures { lent words.new bytes.new ≡ dropped (lent words.old bytes.old) i count }
{
    let at = slot_start(i);
    let next = slot_start(i + 1);
    let end = slot_start(count);
    move_words(words, next, end, at);
    words[0] = (count - 1) as u16;
    let body = body_start(i);
    let behind = body_start(i + 1);
    let last = body_start(count);
    move_bytes(bytes, behind, last, body);
}

// A pack leaves; the rest keep their order. A refusal leaves the board as it is.
pub fn leave(words: &mut [u16], bytes: &mut [u8], number: u16) -> Result<usize, Refusal>
    ensures { done (replied result) (lent words.new bytes.new) ≡ board_call (leave number) (lent words.old bytes.old) }
{
    let n = leave_reply(words, bytes, number)?;
    let count = words[0] as usize;
    let i = slots_before(words, number, count);
    drop_slot(words, bytes, i, count);
    Ok(n)
}
