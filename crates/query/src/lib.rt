// A query's text split into its names: the Rust's `parse_query`.
#![tactic(auto)]

ghost use Rattle.std.specs.Prelude.{◌≡◌, ◌≤◌, length};
ghost use Rattle.definition.specs.Limits.{query_bytes, query_parts};
ghost use Rattle.definition.specs.Query.{query_within};
ghost use Rattle.query.specs.Splits.{Inside, SplitIn, starts_of, lengths_of};
ghost use Rattle.query.specs.Shapes.{bounds_of, fault_within, parsed_as, parsed_names, kept_starts, kept_lengths, no_parts, split_over, split_names, both_of, asked, BothIn};

use refusal::Refusal;
use scan::next_component;
use skips::skip_byte;

// Why a text is not the names of a query, within its bounds.
#[derive(Clone, Copy, Debug, PartialEq, Eq)]
pub enum Fault {
    Malformed,
    // more parts than there may be
    Many,
    // more bytes than there may be
    Long,
}

// A text's parts by value: where each starts and how long it is, and how many there are.
#[derive(Drop)]
pub struct Split<const N: usize> {
    pub starts: [u16; N],
    pub lengths: [u16; N],
    pub count: usize,
}

// The parts of a text, lent with it. A part lives as long as the text, also where its place does not.
#[derive(Clone, Copy)]
pub struct Names<'t, 'p> {
    pub text: &'t [u8],
    pub starts: &'p [u16],
    pub lengths: &'p [u16],
    ghost inside: { Inside text.now starts.now lengths.now },
}

impl<const N: usize> Split<N> {
    // No parts yet.
    pub fn new() -> Split<N>
        ensures { result ≡ no_parts N }
    {
        Split {
            starts: [0; N],
            lengths: [0; N],
            count: 0,
        }
    }

    pub fn names<'t, 'p>(&'p self, text: &'t [u8]) -> Names<'t, 'p>
        requires { SplitIn text.now self.now }
        ensures text { result.text.now ≡ text.now }
        ensures starts { result.starts.now ≡ starts_of self.now }
        ensures lengths { result.lengths.now ≡ lengths_of self.now }
    {
        let n = self.count;
        Names {
            text,
            starts: &self.starts[..n],
            lengths: &self.lengths[..n],
        }
    }
}

// A text of at most `most` bytes, and of as many parts as are lent: how many it has. Parts past the most are counted and not kept: what is
// malformed after them is malformed all the same.
pub fn split_names(
    text: &[u8],
    most: usize,
    starts: &mut [u16],
    lengths: &mut [u16],
) -> Result<usize, Fault>
    requires { (most ≤ query_bytes) × (length lengths.old ≡ length starts.old) }
    ensures { (result ≡ parsed_names (bounds_of most starts.old) text.now) × (starts.new ≡ kept_starts most text.now starts.old) × (lengths.new ≡ kept_lengths most text.now lengths.old) }
{
    if text.len() > most {
        return Err(Fault::Long);
    }
    let mut count = 0;
    let mut rest = text;
    // not by index: a turn takes a part and the dots behind it
    loop {
        let n = next_component(rest);
        if n == 0 {
            break;
        }
        if count < starts.len() {
            starts[count] = (text.len() - rest.len()) as u16;
            lengths[count] = n as u16;
        }
        count += 1;
        rest = skip_byte(&rest[n..], b'.');
    }
    if rest.len() > 0 {
        return Err(Fault::Malformed);
    }
    if starts.len() < count {
        return Err(Fault::Many);
    }
    Ok(count)
}

// That BYTES is at most `query_bytes` stands in each clause: the invariant of a type cannot speak of a function's const parameter.

// The parts of a text, at the bounds of the shell or of the dictionary window, in a struct that is lent: where the text is none, those before the
// fault, and none is counted.
pub fn parse_query<const BYTES: usize, const PARTS: usize>(
    text: &[u8],
    split: &mut Split<PARTS>,
) -> Result<(), Fault>
    requires { BYTES ≤ query_bytes }
    ensures fault { result ≡ parsed_as (fault_within (bounds_of BYTES split.old.starts) text.now) tt }
    ensures split { split.new ≡ split_over BYTES text.now split.old }
{
    split.count = 0;
    split.count = split_names(text, BYTES, &mut split.starts, &mut split.lengths)?;
    Ok(())
}

// Of name and class: number 9 comes before malformed, which gets none, and malformed before number 10.
pub fn both<T: Drop>(a: Result<T, Fault>, b: Result<T, Fault>) -> Result<Option<(T, T)>, Refusal>
    ensures { result ≡ both_of a b }
{
    match (a, b) {
        (Err(Fault::Long), _) | (_, Err(Fault::Long)) => Err(Refusal::LongQuery),
        (Err(Fault::Malformed), _) | (_, Err(Fault::Malformed)) => Ok(None),
        (Err(Fault::Many), _) | (_, Err(Fault::Many)) => Err(Refusal::ManyNames),
        (Ok(name), Ok(class)) => Ok(Some((name, class))),
    }
}

// A query: the parts of its name and of its class by value, none if one is malformed, or 9 or 10.
pub fn parse_both<const BYTES: usize, const PARTS: usize>(
    name: &[u8],
    class: &[u8],
) -> Result<Option<(Split<PARTS>, Split<PARTS>)>, Refusal>
    requires { (BYTES ≤ query_bytes) × (PARTS ≤ query_parts) }
    ensures query { asked name.now class.now result ≡ query_within (record { bytes = BYTES; parts = PARTS }) name.now class.now }
    ensures inside { BothIn name.now class.now result }
    ensures said { result ≡ both_of (split_names BYTES PARTS name.now) (split_names BYTES PARTS class.now) }
{
    let mut names = Split::new();
    let mut classes = Split::new();
    let a = parse_query::<BYTES, PARTS>(name, &mut names);
    let b = parse_query::<BYTES, PARTS>(class, &mut classes);
    match both(a, b)? {
        Some(_) => Ok(Some((names, classes))),
        None => Ok(None),
    }
}
