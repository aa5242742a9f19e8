// The calls of a board of packs: document 02 (ix). The board is two lent buffers; docs/DECISIONS.md has their layout.
ghost use Rattle.std.specs.Prelude.{◌≡◌};
ghost use Rattle.definition.specs.Board.{watch, arrive, leave, lent, board_make, board_call, board_answer, board_answers, board_report};
ghost use Rattle.board_codes.specs.Codes.{answering, answer_numbers, report_code};
ghost use Rattle.board_answers.specs.Numbers.{all_answered, all_numbers};
ghost use Rattle.resource_manager.specs.Boundary.{crossing, board_crossed};

use board_codes::{answer_code, call_code, report_code};

// An empty board: 0, or 1 with both buffers as they were. What is lent beyond a board's words and bytes is not looked at, here and below.
pub fn resource_manager_board_make(words: &mut [u16], bytes: &mut [u8]) -> u64
    ensures { crossing result words.new bytes.new ≡ board_crossed (board_make (lent words.old bytes.old)) }
{
    let made = board::make(words, bytes);
    call_code(made)
}

// A query is watched from now on: its number, from 0, in bits 16 to 31. 1, 8, 13, then 9, malformed (kept), 10: these leave the board as it was.
pub fn resource_manager_board_watch(
    words: &mut [u16],
    bytes: &mut [u8],
    name: &[u8],
    class: &[u8],
) -> u64
    ensures { crossing result words.new bytes.new ≡ board_crossed (board_call (watch (record { name = name.entry.now; class = class.now })) (lent words.old bytes.old)) }
{
    let watched = board::watch(words, bytes, name, class);
    call_code(watched)
}

// A pack arrives last, and its image is copied: 0. 1, 8, for the image too, 13, 14: these leave the board as it was.
pub fn resource_manager_board_arrive(
    words: &mut [u16],
    bytes: &mut [u8],
    number: u16,
    contents: &[u16],
    bodies: &[u8],
) -> u64
    ensures { crossing result words.new bytes.new ≡ board_crossed (board_call (arrive (record { number = number; contents = contents.now; bodies = bodies.now })) (lent words.old bytes.old)) }
{
    let arrived = board::arrive(words, bytes, number, contents, bodies);
    call_code(arrived)
}

// A pack leaves, and the rest keep their order: 0. 1, 8, 14: these leave the board as it was.
pub fn resource_manager_board_leave(words: &mut [u16], bytes: &mut [u8], number: u16) -> u64
    ensures { crossing result words.new bytes.new ≡ board_crossed (board_call (leave number) (lent words.old bytes.old)) }
{
    let left = board::leave(words, bytes, number);
    call_code(left)
}

// The answer of a watched query: the value's place in the bodies of the pack whose number is then in `pack`, in bits 16 to 31, and its length from
// bit 32 on; 65535 for none, also for a number with no query; 1, 8. Without a value `pack` is as it was.
pub fn resource_manager_board_answer(words: &[u16], bytes: &[u8], query: u16, pack: &mut u16) -> u64
    ensures { answering result pack.new ≡ answer_numbers (board_answer (lent words.now bytes.now) query) pack.old }
{
    let found = board_answer::answer(words, bytes, query as usize);
    answer_code(found, pack)
}

// All watched answers by one judging: their number in bits 16 to 31, with, for each number from 0 to 31, in `answers` and `packs` what the call
// above gives and leaves. 1, 8: these leave both as they were.
pub fn resource_manager_board_answers(
    words: &[u16],
    bytes: &[u8],
    answers: &mut [u64; 32],
    packs: &mut [u16; 32],
) -> u64
    ensures { all_answered result answers.new packs.new ≡ all_numbers (board_answers (lent words.now bytes.now)) answers.old packs.old }
{
    board_answers::answer_all(words, bytes, answers, packs)
}

// Which watched answers would change in their bytes, or between bytes and none, if that pack left: bit q of the upper 32 for query q. 1, 8, 14.
pub fn resource_manager_board_report(words: &[u16], bytes: &[u8], number: u16) -> u64
    ensures { result ≡ report_code (board_report (lent words.now bytes.now) number) }
{
    let reported = board_report::report(words, bytes, number);
    report_code(reported)
}
