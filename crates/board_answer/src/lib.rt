// The answer of a watched query. Document 02 (ix).
#![tactic(auto)]

ghost use Rattle.std.specs.Prelude.{◌≡◌, Ok, Some};
ghost use Rattle.definition.specs.Lookup.{given};
ghost use Rattle.definition.specs.Board.{watched_answer, lent, board_in, board_answer};
ghost use Rattle.board_layout.specs.Laid.{lent_of};
ghost use Rattle.board_search.specs.Slots.{Named, place_of};
ghost use Rattle.board_answer.specs.Replies.{answered};

use board_judge::Board;
use board_search::find;
use limits::MOST_ENTRIES;
use lookup::Place;
use refusal::Refusal;

// What a watched query finds: the pack's number, and where the value lies in that pack's bodies.
#[derive(Clone, Copy)]
pub struct Found {
    pub pack: u16,
    pub place: Place,
}

// The value of the entry of that number.
fn place_of(board: Board<'_>, number: usize) -> Found
    requires { Named (lent_of board.buffers) number }
    ensures { answered (Ok (Some result)) ≡ place_of (lent_of board.entry.buffers) (given number) }
{
    let slot = number / MOST_ENTRIES;
    let row = board.image(slot).row(number % MOST_ENTRIES);
    Found {
        pack: board.buffers.slot_at(slot).number,
        place: Place {
            start: row.start + row.key,
            size: row.value,
        },
    }
}

// What watched query `q` of a board gets. A number with no query gets none.
pub fn watched(board: Board<'_>, q: usize) -> Option<Found>
    ensures { answered (Ok result) ≡ watched_answer (board_in (lent_of board.entry.buffers)) q }
{
    let queries = board.buffers.query_count();
    if queries <= q {
        return None;
    }
    let number = find(board, q, None)?;
    Some(place_of(board, number))
}

// What watched query `q` gets: 1, 8.
pub fn answer(words: &[u16], bytes: &[u8], q: usize) -> Result<Option<Found>, Refusal>
    ensures { answered result ≡ board_answer (lent words.now bytes.now) q }
{
    let board = Board::new(words, bytes)?;
    Ok(watched(board, q))
}
