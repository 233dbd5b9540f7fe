// Bytes stored in an output from a place on. Each function answers the place after them; where they run past the end of the output it
// stores nothing and answers the place it was given.
#![tactic(auto)]

ghost use Rattle.std.specs.Prelude.{◌≡◌, [], ◌∷◌, ◌+◌, ◌%◌, replicate, leb};
ghost use Rattle.codec.specs.Codec.{little};
ghost use Rattle.put.specs.Output.{RoomFor, Wrote, Stored};

// So many bytes are stored byte by byte: fewer are done sooner by fours.
const MANY: usize = 64;

// The bytes of src.
pub fn put_bytes(out: &mut [u8], at: usize, src: &[u8]) -> usize
    ensures { Stored at src.now out.old out.new result }
{
    if has_room(out.len(), at, src.len()) {
        if MANY <= src.len() {
            return store_each(out, at, src);
        }
        return store_bytes(out, at, src);
    }
    at
}

// n zeros.
pub fn put_zeros(out: &mut [u8], at: usize, n: usize) -> usize
    ensures { Stored at (replicate n 0) out.old out.new result }
{
    put_little(out, at, 0, n)
}

// The w low bytes of v, the lowest first; zeros after the eighth.
pub fn put_little(out: &mut [u8], at: usize, v: usize, w: usize) -> usize
    ensures { Stored at (little w v) out.old out.new result }
{
    if has_room(out.len(), at, w) {
        return store_little(out, at, v, w);
    }
    at
}

// Whether n bytes from `at` on end within `len`. Where n is a constant, only the second test hangs on `at`.
fn has_room(len: usize, at: usize, n: usize) -> bool
    ensures { result ≡ leb (at + n) len }
{
    if len < n {
        return false;
    }
    if len - n < at {
        return false;
    }
    true
}

// Four bytes at a step. The last four may go over some that are there already, so up to eight bytes take two steps and no loop.
fn store_bytes(out: &mut [u8], at: usize, src: &[u8]) -> usize
    requires { RoomFor at src.now out.old }
    ensures { Wrote at src.now out.old out.new result }
{
    if src.len() < 4 {
        return store_each(out, at, src);
    }
    let last = src.len() - 4;
    let mut a = store_four(out, at, src[0], src[1], src[2], src[3]);
    // A while: each step is four bytes.
    let mut j = 4;
    while j < last {
        a = store_four(out, a, src[j], src[j + 1], src[j + 2], src[j + 3]);
        j += 4;
    }
    store_four(
        out,
        at + last,
        src[last],
        src[last + 1],
        src[last + 2],
        src[last + 3],
    )
}

// Byte by byte, which the compiler turns into wide steps: for the few bytes of a short source, and for many.
fn store_each(out: &mut [u8], at: usize, src: &[u8]) -> usize
    requires { RoomFor at src.now out.old }
    ensures { Wrote at src.now out.old out.new result }
{
    let mut a = at;
    // A while here and in `store_little`: a range was not measured yet, and the writers spend their time here.
    let mut j = 0;
    while j < src.len() {
        a = store_one(out, a, src[j]);
        j += 1;
    }
    a
}

fn store_little(out: &mut [u8], at: usize, v: usize, w: usize) -> usize
    requires { RoomFor at (little w v) out.old }
    ensures { Wrote at (little w v) out.old out.new result }
{
    let mut a = at;
    let mut x = v;
    let mut todo = w;
    while 0 < todo {
        a = store_one(out, a, low(x));
        x = x / 256;
        todo -= 1;
    }
    a
}

// All four are known before the first is stored.
fn store_four(out: &mut [u8], at: usize, a: u8, b: u8, c: u8, d: u8) -> usize
    requires { RoomFor at (a ∷ b ∷ c ∷ d ∷ []) out.old }
    ensures { Wrote at (a ∷ b ∷ c ∷ d ∷ []) out.old out.new result }
{
    out[at] = a;
    out[at + 1] = b;
    out[at + 2] = c;
    out[at + 3] = d;
    at + 4
}

fn store_one(out: &mut [u8], at: usize, v: u8) -> usize
    requires { RoomFor at (v ∷ []) out.old }
    ensures { Wrote at (v ∷ []) out.old out.new result }
{
    out[at] = v;
    at + 1
}

fn low(v: usize) -> u8
    ensures { result ≡ v % 256 }
{
    (v % 256) as u8
}
