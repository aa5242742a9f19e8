// The answers of a board's calls as numbers of 64 bits, as the boundary to C gives them.
#![tactic(auto)]

ghost use Rattle.std.specs.Prelude.{◌≡◌};
ghost use Rattle.board.specs.Replies.{replied};
ghost use Rattle.board_answer.specs.Replies.{answered};
ghost use Rattle.board_codes.specs.Codes.{call_code, Numbered, answering, answer_numbers, Placed, report_code};

use board_answer::Found;
use codes::{FROM_16, FROM_32, NONE};
use refusal::Refusal;

// The number of a query from bit 16 on, which is 0 for the other calls; or the number of the refusal.
pub fn call_code(answer: Result<usize, Refusal>) -> u64
    requires { Numbered answer }
    ensures { result ≡ call_code (replied answer) }
{
    match answer {
        Ok(number) => FROM_16 * (number as u64),
        Err(refusal) => u64::from(refusal),
    }
}

// The place in bits 16 to 31 and the length from bit 32 on, with the pack's number in `pack`; none, or the number of the refusal, with `pack` as it
// was.
pub fn answer_code(answer: Result<Option<Found>, Refusal>, pack: &mut u16) -> u64
    requires { Placed answer }
    ensures { answering result pack.new ≡ answer_numbers (answered answer) pack.old }
{
    match answer {
        Ok(Some(found)) => {
            *pack = found.pack;
            FROM_16 * (found.place.start as u64) + FROM_32 * (found.place.size as u64)
        }
        Ok(None) => NONE,
        Err(refusal) => u64::from(refusal),
    }
}

// The bits of the queries from bit 32 on, or the number of the refusal.
pub fn report_code(answer: Result<u32, Refusal>) -> u64
    ensures { result ≡ report_code (replied answer) }
{
    match answer {
        Ok(bits) => FROM_32 * u64::from(bits),
        Err(refusal) => u64::from(refusal),
    }
}
