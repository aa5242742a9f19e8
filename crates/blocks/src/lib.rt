// Blocks of eight bytes. No test stands between the bytes of a block, so a machine may take all of them at once.
#![tactic(auto)]

ghost use Rattle.std.specs.Prelude.{◌≡◌, ◌+◌, ◌≤◌, length, take, drop};
ghost use Rattle.std.proofs.Math.Seq.{paste};
ghost use Rattle.definition.specs.Lists.{any, zeroes};
ghost use Rattle.blocks.specs.Either.{either};

// The bytes of a block.
pub const BLOCK: usize = 8;

// Has the block that begins at `at` an `a` or a `b`?
pub fn block_has(text: &[u8], at: usize, a: u8, b: u8) -> bool
    requires { at + 8 ≤ length text.now }
    ensures { result ≡ any (either a b) (take 8 (drop at text.now)) }
{
    let mut found = false;
    for i in 0..BLOCK {
        let c = text[at + i];
        found |= (c == a) | (c == b);
    }
    found
}

// The `size` bytes of the source from `from` on, and zeroes.
fn block_at(source: &[u8], from: usize, size: usize) -> [u8; 8]
    requires { (size ≤ 8) × (from + size ≤ length source.now) }
    ensures { result ≡ paste (zeroes 8) 0 (drop from source.now) size }
{
    let mut block: [u8; 8] = [0; 8];
    for i in 0..size {
        block[i] = source[from + i];
    }
    block
}

// Writes the first `size` bytes of a block.
fn write_block(block: [u8; 8], size: usize, store: &mut [u8], at: usize)
    requires { (size ≤ 8) × (at + size ≤ length store.old) }
    ensures { store.new ≡ paste store.old at block size }
{
    for i in 0..size {
        store[at + i] = block[i];
    }
}

// That what is copied lies in both stands in each clause, here and above: a type of store, place and count would be made at each call for that call.

// Copies `size` bytes, from `from` on in the source and from `at` on in the store. All are read before one is written.
pub fn copy_block(source: &[u8], from: usize, size: usize, store: &mut [u8], at: usize)
    requires { (size ≤ 8) × (from + size ≤ length source.now) × (at + size ≤ length store.old) }
    ensures { store.new ≡ paste store.old at (drop from source.now) size }
{
    let block = block_at(source, from, size);
    write_block(block, size, store, at);
}
