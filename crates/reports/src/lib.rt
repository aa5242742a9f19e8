// What getres tells of an answer: the bytes, where they go, and the status.
#![tactic(auto)]

ghost use Rattle.std.specs.Prelude.{◌≡◌, ◌≤◌, length};
ghost use Rattle.definition.specs.Limits.{body_bytes};
ghost use Rattle.refusal.specs.Numbers.{number};
ghost use Rattle.showing.specs.Showing.{lent, value_bytes};
ghost use Rattle.reports.specs.Telling.{refused, told, both_told, not_among, Reports, report_bytes, argument_bytes};
ghost use Rattle.printing.specs.Putting.{left};

use limits::BODY_BYTES;
use printing::Lines;
use refusal::Refusal;
use refusals::reason;
use showing::{put_line, same_answer};

// The status that getres ends with.
#[derive(Clone, Copy)]
pub enum Status {
    // a value, or two equal answers
    Yes = 0,
    // none, or two different answers
    No = 1,
    // a refusal, or an error
    Trouble = 2,
}

// What is told beside the bytes: the status, and whether they go to standard error.
#[derive(Clone, Copy)]
pub struct Report {
    pub status: Status,
    // No part of the status: 1 goes to standard error for no value, and to standard output for two different answers.
    pub wrong: bool,
}

// Room for every report: two lines of a value and a file's name, and a few words. A call asks for it before it writes, and has used it up
// after: no type that is lent to it can hold both, so each contract asks.
pub const REPORT_BYTES: usize = 2 * (BODY_BYTES + 4096) + 64;

// ---- One answer

// A refusal in words.
pub fn refuse(refusal: Refusal, out: &mut Lines) -> Report
    requires { 69 ≤ length (left out.old) }
    ensures { Reports (refused (number refusal)) out.old out.new result }
{
    out.put(b"getres: ");
    out.put(reason(refusal));
    out.put(b"\n");
    Report {
        status: Status::Trouble,
        wrong: true,
    }
}

// One answer: a value, none or a refusal.
#[tactic(auto, unfolding(crate::specs::Telling::told))]
pub fn tell(answer: Result<Option<&[u8]>, Refusal>, out: &mut Lines) -> Report
    requires { (value_bytes (lent answer) ≤ body_bytes) × (report_bytes ≤ length (left out.old)) }
    ensures { Reports (told (lent answer.entry)) out.old out.new result }
{
    match answer {
        Ok(Some(value)) => {
            out.put(value);
            out.put(b"\n");
            Report {
                status: Status::Yes,
                wrong: false,
            }
        }
        Ok(None) => {
            out.put(b"getres: no value\n");
            Report {
                status: Status::No,
                wrong: true,
            }
        }
        Err(refusal) => refuse(refusal, out),
    }
}

// ---- Two answers

// A line for each answer, and whether they differ. `file` is an argument as it is given: one call makes it, and a type with its length would
// be taken apart again at each of its four uses.
#[tactic(auto, using(showing::proofs::Lines::line_most))]
pub fn tell_both(
    file: &[u8],
    a: Result<Option<&[u8]>, Refusal>,
    b: Result<Option<&[u8]>, Refusal>,
    out: &mut Lines,
) -> Report
    requires { (length file.now ≤ argument_bytes) × (value_bytes (lent a) ≤ body_bytes) × (value_bytes (lent b) ≤ body_bytes) × (report_bytes ≤ length (left out.old)) }
    ensures { Reports (both_told file.now (lent a.entry) (lent b.entry)) out.old out.new result }
{
    put_line(b"with ", file, a, out);
    put_line(b"without ", file, b, out);
    if same_answer(a, b) {
        out.put(b"equal\n");
        return Report {
            status: Status::Yes,
            wrong: false,
        };
    }
    out.put(b"different\n");
    Report {
        status: Status::No,
        wrong: false,
    }
}

// No file has that name.
pub fn no_file(file: &[u8], out: &mut Lines) -> Report
    requires { (length file.now ≤ argument_bytes) × (report_bytes ≤ length (left out.old)) }
    ensures { Reports (not_among file.now) out.old out.new result }
{
    out.put(b"getres: ");
    out.put(file);
    out.put(b": not among the files\n");
    Report {
        status: Status::Trouble,
        wrong: true,
    }
}
