// Texts of bytes from 1 to 127, as most names are: they hold no NUL and are UTF-8.
#![tactic(auto)]

ghost use Rattle.std.specs.Prelude.{◌≡◌, ◌+◌, ◌≤◌, length, take, drop};
ghost use Rattle.plain_text.specs.Plain.{plain_byte, plain};

// Whether every byte of s is from 1 to 127. Eight bytes are looked at together; where some are left, the last eight once more.
pub fn is_plain(s: &[u8]) -> bool
    ensures { result ≡ plain s.now }
{
    if s.len() < 8 {
        return by_one(s);
    }
    // Kept as a while: over a range of the eights it took a fifth longer.
    let mut i = 0;
    while i + 8 <= s.len() {
        if !eight(s, i) {
            return false;
        }
        i += 8;
    }
    if i == s.len() {
        return true;
    }
    eight(s, s.len() - 8)
}

// The same of the eight bytes from a on, without a branch.
fn eight(s: &[u8], a: usize) -> bool
    requires { a + 8 ≤ length s.now }
    ensures { result ≡ plain (take 8 (drop a s.now)) }
{
    let mut all = true;
    for j in 0..8 {
        all = all & plain_byte(s[a + j]);
    }
    all
}

// The same, byte by byte.
fn by_one(s: &[u8]) -> bool
    ensures { result ≡ plain s.now }
{
    for &b in s {
        if !plain_byte(b) {
            return false;
        }
    }
    true
}

// Whether a byte is from 1 to 127.
fn plain_byte(b: u8) -> bool
    ensures { result ≡ plain_byte b }
{
    (0 < b) & (b < 128)
}
