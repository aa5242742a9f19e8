// What document 01 refuses, each with its number.
#![tactic(auto)]

ghost use Rattle.std.specs.Prelude.{◌≡◌};
ghost use Rattle.refusal.specs.Numbers.{number};

// Why a call is refused: document 01's table, and what document 02 adds to it.
#[derive(Clone, Copy, Debug, PartialEq, Eq)]
pub enum Refusal {
    // the lent buffers are too short
    ShortBuffers = 1,
    // a text has more than 32,768 bytes
    LongText = 2,
    // the files are not laid out as an archive
    NotAnArchive = 3,
    // more than 4,096 opens
    ManyOpens = 4,
    // an entry with more than 16 parts
    ManyParts = 5,
    // more than 512 entries
    ManyEntries = 6,
    // keys and values of more than 32,768 bytes
    FullBodies = 7,
    // the buffers hold no image, or no board
    NotAnImage = 8,
    // a name or a class of more than 1,024 bytes; of a window, 128
    LongQuery = 9,
    // a name or a class of more than 32 parts; of a window, 8
    ManyNames = 10,
    // the lent text is shorter than what is written
    ShortText = 11,
    // a text that makes no entry, or more than one
    NotOneEntry = 12,
    // 16 packs are kept, or 32 queries watched
    FullBoard = 13,
    // a pack's number that is 0, taken, or not there
    PackNumber = 14,
    // a depth over 100
    GreatDepth = 15,
}

impl From<Refusal> for u8 {
    fn from(refusal: Refusal) -> u8
        ensures { result ≡ number refusal }
    {
        refusal as u8
    }
}

impl From<Refusal> for u64 {
    fn from(refusal: Refusal) -> u64
        ensures { result ≡ number refusal }
    {
        refusal as u64
    }
}
