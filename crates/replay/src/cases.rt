// One recorded line: the reading or the lookup is asked again, and what it gives is compared.
use fields::{is_reading, pass_bytes, pass_number, take_bytes};
use limits::{BODY_BYTES, CONTENTS_WORDS, GREATEST_DEPTH, QUERY_BYTES};
use lookup::{Place, get_bytes};
use readings::{ValueError, get_bool, get_string, get_value, show};
use refusal::Refusal;
use scan::next_component;

// Is the rest of the line one field, of so many bytes?
fn is_whole(rest: &[u8], end: Option<usize>) -> bool {
    match end {
        Some(end) => end == rest.len(),
        None => false,
    }
}

fn is_number(rest: &[u8], number: i64) -> bool {
    let size = number.unsigned_abs() as usize;
    if number < 0 {
        is_whole(rest, pass_number(rest, b" -", size))
    } else {
        is_whole(rest, pass_number(rest, b" ", size))
    }
}

fn is_none(rest: &[u8]) -> bool {
    matches!(rest, b" none")
}

// Is a lookup's answer that of the line? Every recorded lookup is accepted.
fn is_place(rest: &[u8], answer: Result<Option<Place>, Refusal>, bodies: &[u8]) -> bool {
    match answer {
        Ok(Some(place)) => {
            let start = place.start;
            let size = place.size;
            start <= bodies.len()
                && size <= bodies.len() - start
                && is_whole(rest, pass_bytes(rest, &bodies[start..start + size]))
        }
        Ok(None) => is_none(rest),
        Err(_) => false,
    }
}

// The same for a boolean, and for a number.
fn is_truth(rest: &[u8], answer: Result<Option<bool>, Refusal>) -> bool {
    match answer {
        Ok(Some(true)) => matches!(rest, b" true"),
        Ok(Some(false)) => matches!(rest, b" false"),
        Ok(None) => is_none(rest),
        Err(_) => false,
    }
}

fn is_value(rest: &[u8], answer: Result<Option<i64>, ValueError>) -> bool {
    match answer {
        Ok(Some(number)) => is_number(rest, number),
        Ok(None) => is_none(rest),
        Err(ValueError::NotANumber) => matches!(rest, b" notnumber"),
        Err(ValueError::Refused(_)) => false,
    }
}

// What is shown for a query without an answer is the default.
fn is_shown(rest: &[u8], shown: &[u8]) -> bool {
    if is_none(rest) {
        matches!(shown, b"default")
    } else {
        is_whole(rest, pass_bytes(rest, shown))
    }
}

fn is_bytes(rest: &[u8], contents: &[u16], bodies: &[u8], name: &[u8], class: &[u8]) -> bool {
    is_shown(rest, show(contents, bodies, name, class, b"default"))
        && is_place(rest, get_bytes(contents, bodies, name, class), bodies)
}

// The query is asked of the image.
fn is_answer(
    kind: &[u8],
    rest: &[u8],
    contents: &[u16],
    bodies: &[u8],
    name: &[u8],
    class: &[u8],
) -> bool {
    match kind {
        b"bytes" => is_bytes(rest, contents, bodies, name, class),
        b"string" => is_place(rest, get_string(contents, bodies, name, class), bodies),
        b"bool" => is_truth(rest, get_bool(contents, bodies, name, class)),
        b"value" => is_value(rest, get_value(contents, bodies, name, class)),
        _ => false,
    }
}

// A query's name and class, and the answer.
fn replay_lookup(kind: &[u8], line: &[u8], contents: &[u16], bodies: &[u8]) -> bool {
    let mut name = [0; QUERY_BYTES];
    let mut class = [0; QUERY_BYTES];
    let Some(first) = take_bytes(line, &mut name) else {
        return false;
    };
    let rest = &line[first.end..];
    let Some(second) = take_bytes(rest, &mut class) else {
        return false;
    };
    is_answer(
        kind,
        &rest[second.end..],
        contents,
        bodies,
        &name[..first.size],
        &class[..second.size],
    )
}

// The text is read again, at the Rust's depth. Every recorded reading is accepted.
fn replay_reading(kind: &[u8], line: &[u8], text: &[u8], archive: &[u8]) -> bool {
    let mut contents = [0; CONTENTS_WORDS];
    let mut bodies = [0; BODY_BYTES];
    let Ok(read) = reader::read(text, archive, GREATEST_DEPTH, &mut contents, &mut bodies) else {
        return false;
    };
    match kind {
        b"read" => is_reading(line, read.entries, read.opens, &contents, &bodies),
        _ => replay_lookup(kind, line, &contents, &bodies),
    }
}

// Is a line, without its newline, what the calls answer?
pub fn replay_case(line: &[u8]) -> bool {
    let mut text = io::large_buffer();
    let mut archive = io::large_buffer();
    let kind = next_component(line);
    let fields = &line[kind..];
    let Some(first) = take_bytes(fields, &mut text) else {
        return false;
    };
    let rest = &fields[first.end..];
    let Some(second) = take_bytes(rest, &mut archive) else {
        return false;
    };
    replay_reading(
        &line[..kind],
        &rest[second.end..],
        &text[..first.size],
        &archive[..second.size],
    )
}
