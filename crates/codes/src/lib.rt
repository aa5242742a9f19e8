// Answers as numbers of 64 bits, as the boundary to C gives them. A refusal is document 01's number, by `From`. Each answer has a function
// of its own, since their parts stand at different bits: one generic function would be no plainer.
#![tactic(auto)]

ghost use Rattle.std.specs.Prelude.{◌≡◌, ℕ};
ghost use Rattle.definition.specs.Walking.{walk};
ghost use Rattle.adding.specs.Appending.{replied as addReplied};
ghost use Rattle.comparison.specs.Answering.{compared};
ghost use Rattle.lookup.specs.Replies.{replied};
ghost use Rattle.reader.specs.Said.{said};
ghost use Rattle.readings.specs.Replies.{truth_replied, value_replied};
ghost use Rattle.walk.specs.Replies.{start_replied, step_replied};
ghost use Rattle.writer.specs.Extents.{extent_of};
ghost use Rattle.codes.specs.Codes.{read_code, Few, place_code, Small, bool_code, taking, taken, beginning, start_numbers, stepping, step_numbers, Numbered, SmallBoth, numbers, comparison_numbers, write_code, Bounded, add_code, Addable};

use comparison::Both;
use lookup::Place;
use reader::Accepted;
use readings::ValueError;
use refusal::Refusal;

// The parts of an answer above its status, from bit 16 on and from bit 32 on.
pub const FROM_16: u64 = 65536;

pub const FROM_32: u64 = 4294967296;

// Statuses beside document 01's numbers.
pub const NONE: u64 = 65535;

pub const NOT_A_NUMBER: u64 = 65534;

// Entries in bits 16 to 31 and opens in bits 32 to 47, or the number of the refusal.
pub fn read_code(answer: Result<Accepted, Refusal>) -> u64
    requires { Few answer }
    ensures { result ≡ read_code (said answer) }
{
    match answer {
        Ok(accepted) => FROM_16 * (accepted.entries as u64) + FROM_32 * (accepted.opens as u64),
        Err(refusal) => u64::from(refusal),
    }
}

// The place in bits 16 to 31 and the length from bit 32 on; or none, or the number of the refusal.
pub fn place_code(found: Result<Option<Place>, Refusal>) -> u64
    requires { Small found }
    ensures { result ≡ place_code (replied found) }
{
    match found {
        Ok(Some(place)) => FROM_16 * (place.start as u64) + FROM_32 * (place.size as u64),
        Ok(None) => NONE,
        Err(refusal) => u64::from(refusal),
    }
}

// True is above the status, and false is 0.
pub fn bool_code(truth: Result<Option<bool>, Refusal>) -> u64
    ensures { result ≡ bool_code (truth_replied truth) }
{
    match truth {
        Ok(Some(true)) => FROM_16,
        Ok(Some(false)) => 0,
        Ok(None) => NONE,
        Err(refusal) => u64::from(refusal),
    }
}

// 0 with the number in `out`; a status if the value is not a number or there is none, or the number of the refusal, with `out` as it was.
pub fn value_code(value: Result<Option<i64>, ValueError>, out: &mut i64) -> u64
    ensures { taking result out.new ≡ taken (value_replied value) out.old }
{
    match value {
        Ok(Some(number)) => {
            *out = number;
            0
        }
        Ok(None) => NONE, // no value
        Err(ValueError::NotANumber) => NOT_A_NUMBER,
        Err(ValueError::Refused(refusal)) => u64::from(refusal),
    }
}

// 0 with the walk's first numbers in `next` and `count`; or the number of the refusal, with both as they were.
pub fn start_code(answer: Result<u16, Refusal>, next: &mut u16, count: &mut u16) -> u64
    ensures { beginning result next.new count.new ≡ start_numbers (start_replied answer) next.old count.old }
{
    match answer {
        Ok(entries) => {
            *next = 0;
            *count = entries;
            0
        }
        Err(refusal) => u64::from(refusal),
    }
}

// The entry's number from bit 16 on, with one more in `next`; none at the end, or the number of the refusal, with `next` as it was.
pub fn step_code(answer: Result<Option<usize>, Refusal>, next: &mut u16) -> u64
    requires { Numbered answer }
    ensures { (count : ℕ) → stepping result next.new ≡ step_numbers (step_replied answer) (walk next.old count) }
{
    match answer {
        Ok(Some(entry)) => {
            *next = entry as u16 + 1;
            FROM_16 * (entry as u64)
        }
        Ok(None) => NONE, // the end
        Err(refusal) => u64::from(refusal),
    }
}

// 0 with the numbers of both lookups in `with_it` and `without`; none if the archive has no such file, or the number of the refusal, with
// both as they were.
pub fn compare_code(
    answer: Result<Option<Both>, Refusal>,
    with_it: &mut u64,
    without: &mut u64,
) -> u64
    requires { SmallBoth answer }
    ensures { numbers result with_it.new without.new ≡ comparison_numbers (compared answer) with_it.old without.old }
{
    match answer {
        Ok(Some(both)) => {
            *with_it = place_code(Ok(both.with_it));
            *without = place_code(both.without);
            0
        }
        Ok(None) => NONE, // no such file
        Err(refusal) => u64::from(refusal),
    }
}

// The text's length from bit 32 on, or the number of the refusal.
pub fn write_code(answer: Result<usize, Refusal>) -> u64
    requires { Bounded answer }
    ensures { result ≡ write_code (extent_of answer) }
{
    match answer {
        Ok(size) => FROM_32 * (size as u64),
        Err(refusal) => u64::from(refusal),
    }
}

// The new entry's number from bit 16 on, or the number of the refusal.
pub fn add_code(answer: Result<usize, Refusal>) -> u64
    requires { Addable answer }
    ensures { result ≡ add_code (addReplied answer) }
{
    match answer {
        Ok(number) => FROM_16 * (number as u64),
        Err(refusal) => u64::from(refusal),
    }
}
