// The two check words of a house file: over its bytes as little-endian words, the sum of the words and the sum of their running sums.
#![tactic(auto)]

ghost use Rattle.std.specs.Prelude.{◌≡◌, ◌≤◌, ◌<◌, length};
ghost use Rattle.sums.specs.Sums.{words, sums_of, reduced, sums_from};

// The check words, both modulo 65535.
#[derive(Clone, Copy)]
pub struct Sums {
    pub a: usize,
    pub b: usize,
}

// The check words of s. An odd byte at the end is a word of its own.
pub fn sums_of(s: &[u8]) -> Sums
    ensures { result ≡ sums_of s.now }
{
    let mut t = Sums { a: 0, b: 0 };
    for part in s.chunks(508) {
        t = add_part(t.a, t.b, part);
    }
    t
}

// Adds the words of s to check words a and b. The sums of so few words stay small, so they are reduced once, at the end.
fn add_part(a: usize, b: usize, s: &[u8]) -> Sums
    requires { (a < 65535) × (b < 65535) × (length s.now ≤ 508) }
    ensures { result ≡ sums_from a b (words s.now) }
{
    let mut x = a;
    let mut y = b;
    let (pairs, odd) = s.as_chunks::<2>();
    for pair in pairs {
        let w = pair[0] as usize + 256 * (pair[1] as usize);
        x += w;
        y += x;
    }
    match odd.first() {
        Some(last) => {
            x += *last as usize;
            reduce(x, y + x)
        }
        None => reduce(x, y),
    }
}

// Two sums modulo 65535.
fn reduce(a: usize, b: usize) -> Sums
    ensures { result ≡ reduced a b }
{
    Sums {
        a: a % 65535,
        b: b % 65535,
    }
}
