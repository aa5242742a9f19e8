// What the arguments of getres ask, answered: what is told of a query is in `answers` and `answers_without`, of the entries that align with
// it in `answers_listed`, and of a database that is written out in `database_text`; it is written here.
#![tactic(auto)]

ghost use Rattle.std.specs.Prelude.{◌≤◌, ◌<◌, length};
ghost use Rattle.printing.specs.Putting.{left};

use answers::answer;
use answers_listed::{LISTED_BYTES, list_entries};
use answers_without::answer_twice;
use archive::Archive;
use argument_words::depth_of;
use command_line::argument;
use database_text::write_database;
use limits::WRITTEN_BYTES;
use options::Role;
use plans::{Plan, depth_unasked, given};
use printing::Lines;
use reports::{REPORT_BYTES, Report, Status};
use std::io::Print;
use writing::fail;

// A name or a class that is not given is empty.
fn argument_given<'a>(rt: &HostRuntime, i: Option<usize>, buffer: &'a mut [u8]) -> &'a [u8] {
    match i {
        Some(i) => argument(rt, i, buffer),
        None => &buffer[..0],
    }
}

// What is no depth: the plan takes no such argument.
const NO_DEPTH: u64 = u64::MAX;

// The depth of the reading: the one that is asked for, or that of a plan that asks for none.
pub fn depth_asked(rt: &HostRuntime, plan: Plan) -> u64 {
    let Some(i) = given(plan, Role::Depth) else {
        return depth_unasked(plan);
    };
    let mut buffer = io::buffer();
    depth_of(argument(rt, i, &mut buffer)).unwrap_or(NO_DEPTH)
}

// Writes a report, and answers its status, which is trouble if an answer cannot be written.
fn tell(rt: &HostRuntime, report: Report, bytes: &[u8]) -> Status {
    if report.wrong {
        let _ = rt.stderr().write_all(bytes);
        return report.status;
    }
    match rt.stdout().write_all(bytes) {
        Ok(()) => report.status,
        Err(error) => {
            fail(rt, b"standard output", error);
            Status::Trouble
        }
    }
}

// Tells what is made in a buffer of so many bytes.
fn tell_made<const N: usize, F: FnOnce(&mut Lines<'_>) -> Report>(
    rt: &HostRuntime,
    make: F,
) -> Status
    requires room { (out : _) → N ≤ length (left out.now) → F.pre make out }
    requires size { N < 9223372036854775808 }
{
    let mut buffer = [0; N];
    let mut out = Lines::new(&mut buffer);
    let report = make(&mut out);
    tell(rt, report, out.written())
}

// What is told of the query; with the file that an argument names and without it, if there is one.
fn answer_query(
    rt: &HostRuntime,
    without: Option<usize>,
    texts: &[&[u8]],
    archive: Archive<'_>,
    depth: u64,
    name: &[u8],
    class: &[u8],
) -> Status {
    tell_made::<REPORT_BYTES, _>(rt, |out| match without {
        Some(i) => {
            let mut file = io::buffer();
            let file = argument(rt, i, &mut file);
            answer_twice(texts, archive, depth, file, name, class, out)
        }
        None => answer(texts, archive.bytes, depth, name, class, out),
    })
}

fn write_out(rt: &HostRuntime, texts: &[&[u8]], archive: Archive<'_>, depth: u64) -> Status {
    tell_made::<WRITTEN_BYTES, _>(rt, |out| write_database(texts, archive.bytes, depth, out))
}

fn list_out(
    rt: &HostRuntime,
    texts: &[&[u8]],
    archive: Archive<'_>,
    depth: u64,
    name: &[u8],
    class: &[u8],
) -> Status {
    tell_made::<LISTED_BYTES, _>(rt, |out| {
        list_entries(texts, archive.bytes, depth, name, class, out)
    })
}

// Writes the database of these texts out, or lists or answers the query that the arguments name with them, and gives the status.
pub fn answer_plan(rt: &HostRuntime, plan: Plan, texts: &[&[u8]], archive: Archive<'_>) -> Status {
    let depth = depth_asked(rt, plan);
    if plan.write {
        return write_out(rt, texts, archive, depth);
    }
    let mut buffer = io::buffer();
    let name = argument_given(rt, given(plan, Role::Name), &mut buffer);
    let mut other = io::buffer();
    let class = argument_given(rt, given(plan, Role::Class), &mut other);
    if plan.list {
        return list_out(rt, texts, archive, depth, name, class);
    }
    answer_query(
        rt,
        given(plan, Role::Without),
        texts,
        archive,
        depth,
        name,
        class,
    )
}
