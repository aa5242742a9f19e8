// Bytes of an archive put in a copy: its numbers, and parts of another archive.
#![tactic(auto)]

ghost use Rattle.std.specs.Prelude.{◌≡◌, ◌++◌, ◌+◌, ◌-◌, ◌≤◌, ◌<◌, length, take, drop};
ghost use Rattle.std.proofs.Math.Seq.{paste};
ghost use Rattle.definition.specs.Archive.{bytes_of};

use copies::copy_in;

// Puts a number in two bytes, low byte first.
pub fn put_word(n: usize, out: &mut [u8], at: usize)
    requires { (n < 65536) × (at + 2 ≤ length out.old) }
    ensures { out.new ≡ paste out.old at (bytes_of n) 2 }
{
    copy_in(&(n as u16).to_le_bytes(), out, at);
}

// Puts a file's two lengths.
pub fn put_lengths(name: usize, body: usize, out: &mut [u8], at: usize)
    requires { (name < 65536) × (body < 65536) × (at + 4 ≤ length out.old) }
    ensures { out.new ≡ paste out.old at (bytes_of name ++ bytes_of body) 4 }
{
    put_word(name, out, at);
    put_word(body, out, at + 2);
}

// Copies a part of the archive.
pub fn copy_part(archive: &[u8], from: usize, to: usize, out: &mut [u8], at: usize)
    requires { (from ≤ to) × (to ≤ length archive.now) × (at + (to - from) ≤ length out.old) }
    ensures { out.new ≡ paste out.old at (take (to - from) (drop from archive.now)) (to - from) }
{
    copy_in(&archive[from..to], out, at);
}
