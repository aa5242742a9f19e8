// What the leaving of a pack would change, told beforehand. Document 02 (ix).
#![tactic(auto)]

ghost use Rattle.std.specs.Prelude.{◌≡◌, not, ◌+◌, ◌*◌, ◌≤◌, ◌<◌, get_or, if◌then◌else◌};
ghost use Rattle.definition.specs.Lists.{same};
ghost use Rattle.definition.specs.Board.{each, changes, bits_of, lent, pack_count, query_count, slot_start, board_in, board_report};
ghost use Rattle.board_layout.specs.Laid.{lent_of};
ghost use Rattle.board_search.specs.Slots.{Named, spot_value};
ghost use Rattle.board.specs.Replies.{replied};

use board::{leave_reply, slots_before};
use board_judge::Board;
use board_layout::Buffers;
use board_search::find;
use limits::MOST_ENTRIES;
use refusal::Refusal;

// The value of the entry of that number, where it lies.
fn value_at<'a>(board: Board<'a>, number: usize) -> &'a [u8]
    requires { Named (lent_of board.buffers) number }
    ensures { result.now ≡ spot_value (lent_of board.entry.buffers) number }
{
    let image = board.image(number / MOST_ENTRIES);
    image.value(number % MOST_ENTRIES)
}

// Do two entries carry other bytes?
fn differ(board: Board<'_>, n: usize, m: usize) -> bool
    requires { Named (lent_of board.buffers) n × Named (lent_of board.buffers) m }
    ensures { result ≡ not (same (spot_value (lent_of board.entry.buffers) n) (spot_value (lent_of board.entry.buffers) m)) }
{
    let a = value_at(board, n);
    let b = value_at(board, m);
    a != b
}

// Does the answer of watched query `q` change if the pack in slot `i` leaves? Not if the entry that it finds is of another pack: the striking_off
// rule.
fn changes(board: Board<'_>, i: usize, q: usize) -> bool
    requires { (i < pack_count (lent_of board.buffers)) × (q < query_count (lent_of board.buffers)) }
    ensures { result ≡ changes (get_or board.entry.buffers.words.now (slot_start i) 0) (board_in (lent_of board.entry.buffers)) q }
{
    match find(board, q, None) {
        None => false,
        Some(n) => {
            if n / MOST_ENTRIES != i {
                return false;
            }
            match find(board, q, Some(i)) {
                None => true,
                Some(m) => differ(board, n, m),
            }
        }
    }
}

// The bits of later queries with that of one before them.
fn with_bit(bit: bool, bits: u32) -> u32
    requires { bits < 2147483648 }
    ensures { result ≡ (if bit then 1 else 0) + 2 * bits }
{
    u32::from(bit) + 2 * bits
}

// The bits of all watched queries, for the pack in slot `i`.
fn bits_of(board: Board<'_>, i: usize, count: usize) -> u32
    requires { (i < pack_count (lent_of board.buffers)) × (count ≡ query_count (lent_of board.buffers)) }
    ensures { result ≡ bits_of (each (changes (get_or board.entry.buffers.words.now (slot_start i) 0) (board_in (lent_of board.entry.buffers))) 0 count) }
{
    let mut bits: u32 = 0;
    for q in (0..count).rev() {
        bits = with_bit(changes(board, i, q), bits);
    }
    bits
}

// Which watched answers would change, in their bytes or between bytes and none, if that pack left: 1, 8, 14. A bit for each watched query, the lowest
// for query 0. The board is judged once, for all queries.
pub fn report(words: &[u16], bytes: &[u8], number: u16) -> Result<u32, Refusal>
    ensures { replied result ≡ board_report (lent words.now bytes.now) number }
{
    let _ = leave_reply(words, bytes, number)?;
    let buffers = Buffers { words, bytes };
    // A leaving is answered of a board alone, so these buffers hold one.
    let board = Board { buffers };
    let packs = board.buffers.pack_count();
    let i = slots_before(words, number, packs);
    let queries = board.buffers.query_count();
    Ok(bits_of(board, i, queries))
}
