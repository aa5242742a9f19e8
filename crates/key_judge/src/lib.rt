// Is it a key? One to 16 parts, each a binding and `?` or a name, of which the last is a name.
#![tactic(auto)]

ghost use Rattle.std.specs.Prelude.{◌≡◌, true, ℕ, ◌+◌, ◌≤◌, ◌<◌, length, get_or};
ghost use Rattle.definition.specs.Bytes.{is_binding, is_name};
ghost use Rattle.definition.specs.Image.{is_key};
ghost use Rattle.key_judge.specs.Pairs.{may_follow, bindings_in};

use limits::MOST_PARTS;
use scan::next_component;

pub fn is_binding(c: u8) -> bool
    ensures { result ≡ is_binding c }
{
    match c {
        b'.' | b'*' => true,
        _ => false,
    }
}

// Part by part.
fn walk_key(key: &[u8]) -> bool
    ensures { result ≡ is_key key.now }
{
    let mut rest = key;
    for _parts in 0..MOST_PARTS {
        if rest.len() < 2 {
            return false;
        }
        if !is_binding(rest[0]) {
            return false;
        }
        let component = &rest[1..];
        let mut n = next_component(component);
        if n == 0 {
            if component[0] != b'?' {
                return false;
            }
            n = 1;
        }
        // the last part must be a name
        if n == component.len() {
            return component[0] != b'?';
        }
        rest = &component[n..];
    }
    false
}

// As `scan::allowed_in_quark_name`, but all is computed and nothing is branched on: see `run_links`.
fn is_name_byte(c: u8) -> bool
    ensures { result ≡ is_name c }
{
    (c >= b'A') & (c <= b'Z')
        | (c >= b'a') & (c <= b'z')
        | (c >= b'0') & (c <= b'9')
        | (c == b'_')
        | (c == b'-')
}

// May `c` stand after `p` in a key?
fn may_follow(p: u8, c: u8) -> bool
    ensures { result ≡ may_follow p c }
{
    let bound = is_binding(p);
    let binding = is_binding(c);
    let wild = p == b'?';
    let wildcard = c == b'?';
    let name = is_name_byte(c);
    (binding & !bound) | (bound & wildcard) | (name & !wild)
}

// A run has as many neighbours to test as a machine tests at once, and one byte more.
const LINKS: usize = 16;

const RUN: usize = LINKS + 1;

// May each byte of the run that begins at `at` stand after the byte before it? No test leaves the loop, so a machine may test all at once.
fn run_links(key: &[u8], at: usize) -> bool
    requires { at + 17 ≤ length key.now }
    ensures { result ≡ true → (j : ℕ) → j < 16 → may_follow (get_or key.now (at + j) 0) (get_or key.now (at + j + 1) 0) ≡ true }
{
    let mut links = true;
    for i in 0..LINKS {
        let link = may_follow(key[at + i], key[at + i + 1]);
        links = links & link;
    }
    links
}

// The same for every byte, run by run, of which the last ends with the key.
fn all_links(key: &[u8]) -> bool
    requires { 17 ≤ length key.now }
    ensures { result ≡ true → (j : ℕ) → j + 1 < length key.now → may_follow (get_or key.now j 0) (get_or key.now (j + 1) 0) ≡ true }
{
    let last = key.len() - RUN;
    let mut at: usize = 0;
    // It goes on by runs, and the last one may overlap the one before: `step_by` says that no plainer.
    while at < last {
        if !run_links(key, at) {
            return false;
        }
        at += LINKS;
    }
    run_links(key, last)
}

fn count_bindings(key: &[u8]) -> u8
    requires { length key.now ≤ 255 }
    ensures { result ≡ bindings_in key.now }
{
    let mut n: u8 = 0;
    for c in key {
        n += u8::from(is_binding(*c));
    }
    n
}

// A part has two bytes or more, so a key of no more bytes than these has no more than the most parts.
const FEW_BYTES: usize = 2 * MOST_PARTS + 1;

// A key for certain, by its neighbouring bytes. Short ones and long ones are left to `walk_key`.
fn is_plain_key(key: &[u8]) -> bool
    ensures { result ≡ true → is_key key.now ≡ true }
{
    let n = key.len();
    if n < RUN {
        return false;
    }
    // a byte holds the count of bindings
    if 255 < n {
        return false;
    }
    if !is_binding(key[0]) {
        return false;
    }
    if !is_name_byte(key[n - 1]) {
        return false;
    }
    if FEW_BYTES < n {
        if MOST_PARTS < count_bindings(key) as usize {
            return false;
        }
    }
    all_links(key)
}

// Most keys are plain.
pub fn is_key(key: &[u8]) -> bool
    ensures { result ≡ is_key key.now }
{
    if is_plain_key(key) {
        return true;
    }
    walk_key(key)
}
