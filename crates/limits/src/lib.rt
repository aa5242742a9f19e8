// Document 01's limits, each under the name that Limits.antt of the definition has for it. A contract holds code to the definition's
// number, so that a slip here is refused where the number is used; a test holds the two lists to each other.
#![tactic(auto)]

// A text of a reading (document 01's main text is one) and the archive (its shelf), in bytes.
pub const TEXT_BYTES: usize = 32768;

pub const ARCHIVE_BYTES: usize = 65536;

pub const ARCHIVE_FILES: usize = 64;

pub const FILE_NAME_BYTES: usize = 96;

// The depth of a reading, in which a text of the reading is at depth 0: the greatest that a caller may give, and the one where the caller
// gives none (document 02 (x)).
pub const GREATEST_DEPTH: u64 = 100;

pub const DEFAULT_DEPTH: u64 = 20;

pub const MOST_OPENS: usize = 4096;

pub const MOST_ENTRIES: usize = 512;

pub const MOST_PARTS: usize = 16;

// Keys and values together, and the bytes of the lent bodies.
pub const BODY_BYTES: usize = 32768;

// The words of an entry's row: start, key length, value length, and where its line stands.
pub const ROW_WORDS: usize = 4;

// The words of the lent contents.
pub const CONTENTS_WORDS: usize = 2 + ROW_WORDS * MOST_ENTRIES;

// The same of an image from before document 02 (viii).
pub const OLD_ROW_WORDS: usize = 3;

pub const OLD_CONTENTS_WORDS: usize = 2 + OLD_ROW_WORDS * MOST_ENTRIES;

// The word of a row whose line stands nobody knows where.
pub const UNKNOWN_FILE: usize = 65535;

// The longest text of an image: document 02 (iv).
pub const WRITTEN_BYTES: usize = 2 * BODY_BYTES + MOST_ENTRIES;

// Of a query's name or class.
pub const QUERY_BYTES: usize = 1024;

pub const QUERY_PARTS: usize = 32;

// Of one that the dictionary window asks: document 02 (vi).
pub const WINDOW_BYTES: usize = 128;

pub const WINDOW_PARTS: usize = 8;

// Of a board of packs: document 02 (ix).
pub const MOST_PACKS: usize = 16;

pub const MOST_QUERIES: usize = 32;

// The words of a pack's slot: its number, then its contents.
pub const SLOT_WORDS: usize = 1 + CONTENTS_WORDS;

// The words and the bytes of the lent board.
pub const BOARD_WORDS: usize = 2 + 2 * MOST_QUERIES + SLOT_WORDS * MOST_PACKS;

pub const BOARD_BYTES: usize = 2 * QUERY_BYTES * MOST_QUERIES + BODY_BYTES * MOST_PACKS;
