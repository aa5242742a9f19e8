// All watched answers by one call, which judges the board once. Document 02 (ix).
#![tactic(auto)]

ghost use Rattle.std.specs.Prelude.{◌≡◌, length};
ghost use Rattle.definition.specs.Limits.{most_queries};
ghost use Rattle.definition.specs.Board.{watched_answers, lent, board_in, board_answers};
ghost use Rattle.board_layout.specs.Laid.{lent_of};
ghost use Rattle.board_answers.specs.Numbers.{answers_of, packs_of, all_answered, all_numbers};

use board_answer::watched;
use board_codes::answer_code;
use board_judge::Board;
use codes::FROM_16;
use limits::MOST_QUERIES;

// An answer for each of the 32 numbers, with the pack's number in its own place of `packs`.
fn put_answers(board: Board<'_>, answers: &mut [u64], packs: &mut [u16])
    requires { (length answers.old ≡ most_queries) × (length packs.old ≡ most_queries) }
    ensures { (answers.new ≡ answers_of (watched_answers (board_in (lent_of board.entry.buffers))) packs.old) × (packs.new ≡ packs_of (watched_answers (board_in (lent_of board.entry.buffers))) packs.old) }
{
    for q in 0..MOST_QUERIES {
        answers[q] = answer_code(Ok(watched(board, q)), &mut packs[q]);
    }
}

// The number of watched queries from bit 16 on, with an answer for each of the 32 numbers; or 1, 8, with both arrays as they were.
pub fn answer_all(words: &[u16], bytes: &[u8], answers: &mut [u64], packs: &mut [u16]) -> u64
    requires { (length answers.old ≡ most_queries) × (length packs.old ≡ most_queries) }
    ensures { all_answered result answers.new packs.new ≡ all_numbers (board_answers (lent words.now bytes.now)) answers.old packs.old }
{
    match Board::new(words, bytes) {
        Ok(board) => {
            put_answers(board, answers, packs);
            FROM_16 * (board.buffers.query_count() as u64)
        }
        Err(refusal) => u64::from(refusal),
    }
}
