// The refusals of document 01's table, those of document 02 among them, in words.
#![tactic(auto)]

ghost use Rattle.std.specs.Prelude.{◌≡◌, ◌≤◌, length};
ghost use Rattle.refusal.specs.Numbers.{number};
ghost use Rattle.refusals.specs.Refusals.{refusal_of};

use refusal::Refusal;

// The words of a refusal. 1, 3, 8 and 11 to 14 do not come up: the buffers are long enough and hold what was read, the archive is laid
// out, nothing is added, and there is no board.
#[tactic(auto, unfolding(crate::specs::Refusals::refusal_of))]
pub fn reason(refusal: Refusal) -> &'static [u8]
    ensures { (result.now ≡ refusal_of (number refusal)) × (length result.now ≤ 60) }
{
    match refusal {
        Refusal::ShortBuffers => b"refused 1: the buffers are too short",
        Refusal::LongText => b"refused 2: a text has more than 32,768 bytes",
        Refusal::NotAnArchive => b"refused 3: the files are not laid out as an archive",
        Refusal::ManyOpens => b"refused 4: the includes open files more than 4,096 times",
        Refusal::ManyParts => b"refused 5: an entry has more than 16 parts",
        Refusal::ManyEntries => b"refused 6: there are more than 512 entries",
        Refusal::FullBodies => b"refused 7: keys and values have more than 32,768 bytes",
        Refusal::NotAnImage => b"refused 8: the buffers hold no database",
        Refusal::LongQuery => b"refused 9: the name or the class has more than 1,024 bytes",
        Refusal::ManyNames => b"refused 10: the name or the class has more than 32 parts",
        Refusal::ShortText => b"refused 11: the buffer is shorter than the text",
        Refusal::NotOneEntry => b"refused 12: the text makes no entry or more than one",
        Refusal::FullBoard => b"refused 13: the board keeps 16 packs, or watches 32 queries",
        Refusal::PackNumber => b"refused 14: the pack's number is 0, taken, or not there",
        Refusal::GreatDepth => b"refused 15: the depth is over 100",
    }
}

// The words of a number. What is no refusal's number has `refused` alone.
pub fn reason_of(number: u8) -> &'static [u8]
    ensures { (result.now ≡ refusal_of number) × (length result.now ≤ 60) }
{
    match number {
        1 => reason(Refusal::ShortBuffers),
        2 => reason(Refusal::LongText),
        3 => reason(Refusal::NotAnArchive),
        4 => reason(Refusal::ManyOpens),
        5 => reason(Refusal::ManyParts),
        6 => reason(Refusal::ManyEntries),
        7 => reason(Refusal::FullBodies),
        8 => reason(Refusal::NotAnImage),
        9 => reason(Refusal::LongQuery),
        10 => reason(Refusal::ManyNames),
        11 => reason(Refusal::ShortText),
        12 => reason(Refusal::NotOneEntry),
        13 => reason(Refusal::FullBoard),
        14 => reason(Refusal::PackNumber),
        15 => reason(Refusal::GreatDepth),
        _ => b"refused",
    }
}
