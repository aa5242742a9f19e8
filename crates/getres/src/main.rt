// getres: the value that a query gets from a main text or a start-up chain and their files, and whether striking a file off changes
// it; the entries that align with it; or the whole database that these give, written out. Its arguments come from `command_line`, what
// they name from `loading` and `chain_input`; `answering`, `tell_missing` and `tell_shared` tell what there is to tell.
#![tactic(auto)]

use answering::{answer_plan, depth_asked};
use archive::Archive;
use argument_words::descriptor;
use chain_input::{read_property, read_start_up, write_steps};
use command_line::{argument, read_arguments};
use limits::TEXT_BYTES;
use loading::{load_files, read_text};
use options::Role;
use plans::{Plan, given, is_whole};
use reports::Status;
use sources::StartUp;
use tell_missing::{Text, tell_missing};
use tell_shared::tell_shared;
use writing::{complain, write_help};

// ---- Texts

// Tells what is asked for beside the answer, and answers. `named` are the texts with the words that say which they are.
fn answer_texts(
    rt: &HostRuntime,
    plan: Plan,
    named: &[Text<'_>],
    texts: &[&[u8]],
    archive: Archive<'_>,
) -> Status {
    if plan.missing {
        tell_missing(rt, named, archive);
    }
    if plan.shared {
        tell_shared(rt, texts, archive, depth_asked(rt, plan));
    }
    answer_plan(rt, plan, texts, archive)
}

// ---- A main text

fn answer_text(rt: &HostRuntime, plan: Plan, text: &[u8], archive: Archive<'_>) -> Status {
    let main = Text {
        place: b"main text",
        bytes: text,
    };
    answer_texts(rt, plan, &[main], &[text], archive)
}

// A text's buffer has one byte more than a text may have, so that the reading refuses what fills it.
fn answer_main(rt: &HostRuntime, plan: Plan, archive: Archive<'_>) -> Status {
    let mut text = [0; TEXT_BYTES + 1];
    let Some(i) = given(plan, Role::Text) else {
        return Status::Trouble;
    };
    match read_text(rt, i, &mut text) {
        Some(n) => answer_text(rt, plan, &text[..n], archive),
        None => Status::Trouble,
    }
}

// ---- A start-up chain

// Answers with the texts that the chain uses, and says first which they are.
fn answer_start(rt: &HostRuntime, plan: Plan, start: StartUp<'_>, archive: Archive<'_>) -> Status {
    write_steps(rt, start);
    let texts = start.texts();
    let [first, second] = texts;
    let named = [
        Text {
            place: b"first text",
            bytes: first,
        },
        Text {
            place: b"second text",
            bytes: second,
        },
    ];
    answer_texts(rt, plan, &named, &texts, archive)
}

fn answer_chain(rt: &HostRuntime, plan: Plan, archive: Archive<'_>) -> Status {
    let mut property = [0; TEXT_BYTES + 1];
    let Some(n) = read_property(rt, plan, &mut property) else {
        return Status::Trouble;
    };
    let mut first = [0; TEXT_BYTES + 1];
    let mut second = [0; TEXT_BYTES + 1];
    let start = read_start_up(rt, plan, &property[..n], &mut first, &mut second);
    answer_start(rt, plan, start, archive)
}

// Reads the files, and answers.
fn answer_files(rt: &HostRuntime, plan: Plan) -> Status {
    let Some(files) = load_files(rt) else {
        return Status::Trouble;
    };
    if plan.chain {
        answer_chain(rt, plan, files.archive())
    } else {
        answer_main(rt, plan, files.archive())
    }
}

// Says which argument is not understood.
fn refuse_argument(rt: &HostRuntime, i: usize) {
    let mut buffer = io::buffer();
    complain(rt, argument(rt, i, &mut buffer), b"not understood");
}

// The status: of a value, entries, equal answers or a database, of none or different answers, or of what is refused or fails.
fn run(rt: &HostRuntime, plan: Plan) -> Status {
    if plan.help {
        write_help(&rt.stdout());
        return Status::Yes;
    }
    if let Some(i) = plan.wrong {
        refuse_argument(rt, i);
    }
    if plan.wrong.is_some() || !is_whole(plan) {
        write_help(&rt.stderr());
        return Status::Trouble;
    }
    answer_files(rt, plan)
}

// Writes the status to the descriptor that is asked for.
fn write_status(rt: &HostRuntime, plan: Plan, status: Status) {
    let Some(i) = given(plan, Role::Status) else {
        return;
    };
    let mut buffer = io::buffer();
    if let Some(fd) = descriptor(argument(rt, i, &mut buffer)) {
        writing::write_status(fd as i32, status);
    }
}

fn main(rt: HostRuntime) {
    let plan = read_arguments(&rt);
    let status = run(&rt, plan);
    write_status(&rt, plan, status);
}
