// Bytes copied into a store: all of a text, or those of a value that stand for themselves.
#![tactic(auto)]

ghost use Rattle.std.specs.Prelude.{◌≡◌, ◌+◌, ◌-◌, ◌≤◌, ◌<◌, length, drop};
ghost use Rattle.std.proofs.Math.Seq.{paste};
ghost use Rattle.definition.specs.Lists.{take_while};
ghost use Rattle.copies.specs.Plain.{is_plain, stepped};

use blocks::{BLOCK, block_has, copy_block};

// A store is lent whole with a place in it, here and above: the place is a number of the image's rows or of its text, and with a slice from
// there on each answer would have to be counted from the front again.

// Copies whole blocks of `source` into `store` from `at` on: how many bytes.
fn copy_blocks(source: &[u8], store: &mut [u8], at: usize) -> usize
    requires { at + length source.now ≤ length store.old }
    ensures { (store.new ≡ paste store.old at source.now result) × (result ≤ length source.now) × (length source.now - result < 8) }
{
    let mut i: usize = 0;
    // A turn takes a block: a range by steps of eight says no more, and hides that what is left is less than a block.
    while BLOCK <= source.len() - i {
        copy_block(source, i, BLOCK, store, at + i);
        i += BLOCK;
    }
    i
}

// Copies `size` bytes more, those from `from` on, if there are so many: how far the copy goes then.
fn copy_step(source: &[u8], from: usize, size: usize, store: &mut [u8], at: usize) -> usize
    requires { (size ≤ 8) × (from ≤ length source.now) × (at + length source.now ≤ length store.old) }
    ensures { (result ≡ stepped (length source.now) from size) × (store.new ≡ paste store.old (at + from) (drop from source.now) (result - from)) }
{
    if source.len() - from < size {
        return from;
    }
    copy_block(source, from, size, store, at + from);
    from + size
}

// Copies `source` into `store` from `at` on.
pub fn copy_in(source: &[u8], store: &mut [u8], at: usize)
    requires { at + length source.now ≤ length store.old }
    ensures { store.new ≡ paste store.old at source.now (length source.now) }
{
    let n = copy_blocks(source, store, at);
    let m = copy_step(source, n, 4, store, at);
    let k = copy_step(source, m, 2, store, at);
    copy_step(source, k, 1, store, at);
}

// Copies whole blocks of plain bytes: how many bytes.
fn copy_plain_blocks(text: &[u8], store: &mut [u8], at: usize) -> usize
    requires { at + length text.now ≤ length store.old }
    ensures { (store.new ≡ paste store.old at text.now result) × (result ≤ length text.now) × (length (take_while is_plain text.now) ≡ result + length (take_while is_plain (drop result text.now))) }
{
    let mut i: usize = 0;
    // A turn takes a block, as in `copy_blocks`.
    while BLOCK <= text.len() - i {
        if block_has(text, i, b'\n', b'\\') {
            return i;
        }
        copy_block(text, i, BLOCK, store, at + i);
        i += BLOCK;
    }
    i
}

// Copies the plain bytes at the front of `text` into `store` from `at` on: how many there are.
pub fn copy_plain(text: &[u8], store: &mut [u8], at: usize) -> usize
    requires { at + length text.now ≤ length store.old }
    ensures { (result ≡ length (take_while is_plain text.now)) × (store.new ≡ paste store.old at text.now result) }
{
    let whole = copy_plain_blocks(text, store, at);
    for i in whole..text.len() {
        let c = text[i];
        if c == b'\n' {
            return i;
        }
        if c == b'\\' {
            return i;
        }
        store[at + i] = c;
    }
    text.len()
}
