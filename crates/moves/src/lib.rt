// Words copied into a buffer, and words and bytes moved towards the front of theirs, in the definition's words.
#![tactic(auto)]

ghost use Rattle.std.specs.Prelude.{◌≡◌, ◌+◌, ◌≤◌, length};
ghost use Rattle.std.proofs.Math.Seq.{slice};
ghost use Rattle.definition.specs.Adding.{over};

// Copies `source` into `store` from `at` on. Word by word: what the library copies calls memmove of the host, and include/resource_manager.h
// promises that of the host memcpy and memset alone are called.
pub fn copy_words(source: &[u16], store: &mut [u16], at: usize)
    requires { at + length source.now ≤ length store.old }
    ensures { store.new ≡ over at source.now store.old }
{
    for i in 0..source.len() {
        store[at + i] = source[i];
    }
}

// Moves the words from `from` up to `to` to the place `at`, which is not behind `from`.
pub fn move_words(words: &mut [u16], from: usize, to: usize, at: usize)
    requires { (at ≤ from) × (from ≤ to) × (to ≤ length words.old) }
    ensures { words.new ≡ over at (slice from to words.old) words.old }
{
    words.copy_within(from..to, at);
}

// The same of bytes.
// One generic function is no plainer: each is one call of the library, and the definition's `over` is of numbers.
pub fn move_bytes(bytes: &mut [u8], from: usize, to: usize, at: usize)
    requires { (at ≤ from) × (from ≤ to) × (to ≤ length bytes.old) }
    ensures { bytes.new ≡ over at (slice from to bytes.old) bytes.old }
{
    bytes.copy_within(from..to, at);
}
