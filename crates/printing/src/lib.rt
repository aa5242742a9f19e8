// A lent buffer that is written from its start on.
#![tactic(auto)]

ghost use Rattle.std.specs.Prelude.{◌≡◌, ◌≤◌, [], ◌++◌, length, drop, List, ℕ};

use copies::copy_in;

// The buffer, and how many bytes of it are written.
// No model: a caller learns what the buffer became by the reference's ghost name, which a model would hide.
#[derive(Drop)]
pub struct Lines<'a> {
    out: &'a mut [u8],
    len: usize,
    ghost fits: { len ≤ length out.now },
}

impl<'a> Lines<'a> {
    ghost use Rattle.printing.specs.Putting.{Appends, written, left, decimal};

    // Nothing is written yet.
    pub fn new(out: &'a mut [u8]) -> Lines<'a>
        ensures { (written result ≡ []) × (left result ≡ out.old) × (result.out.ghost_name ≡ out.entry.ghost_name) }
    {
        Lines { out, len: 0 }
    }

    // What is written.
    pub fn written(&self) -> &[u8]
        ensures { result.now ≡ written self.now }
    {
        &self.out[..self.len]
    }

    // Writes `bytes` behind what is written. What `copies` calls `Appends` is of a store and a place in it, pasted; here callers join what is
    // written, and need to know that it is the same buffer.
    pub fn put(&mut self, bytes: &[u8])
        requires { length bytes.now ≤ length (left self.old) }
        ensures { Appends bytes.now self.old self.new }
    {
        copy_in(bytes, self.out, self.len);
        self.len += bytes.len();
    }

    // Writes `n` in decimal.
    pub fn put_number(&mut self, n: usize)
        requires { length (decimal n) ≤ length (left self.old) }
        ensures { Appends (decimal n) self.old self.new }
    {
        let mut digits = [0; 20];
        let k = io::decimal(n as u64, &mut digits);
        self.put(&digits[..k]);
    }
}

// Writes `bytes` at the start of `out`, and answers how many they are.
pub fn put_in(bytes: &[u8], out: &mut [u8]) -> usize
    requires { length bytes.now ≤ length out.old }
    ensures { (out.new ≡ bytes.now ++ drop (length bytes.now) out.old) × (result ≡ length bytes.now) }
{
    let mut lines = Lines::new(out);
    lines.put(bytes);
    bytes.len()
}
