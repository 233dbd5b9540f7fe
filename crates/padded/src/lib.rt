// Texts of a fixed width that are filled up with NULs, as the dataset and the symbols are: after a NUL only NULs follow.
#![tactic(auto)]

ghost use Rattle.std.specs.Prelude.{◌≡◌, ◌&&◌, ◌+◌, ◌-◌, ◌/◌, ◌<◌, ◌≤◌, length, drop};
ghost use Rattle.codec.specs.Codec.{among};
ghost use Rattle.text.specs.Ascii.{ascii};
ghost use Rattle.padded.specs.Padded.{nul_padded, each_padded};
ghost use Rattle.padded.specs.Pairs.{good_pair, good_pairs, good_text};
ghost use Rattle.padded.specs.PaddedAnswer.{told, padded_of};

use text::{is_utf8, trimmed_len};

// What is wrong with such a text: it is not UTF-8; or it is, and another byte follows a NUL.
#[derive(Clone, Copy)]
pub enum Fault {
    NotUtf8,
    AfterNul,
}

// Whether s is UTF-8, and then whether only NULs follow a NUL. One walk tells both of bytes below 128; of other texts the bytes
// before the NULs at the end are UTF-8 where s is, and hold no NUL where only NULs follow one.
pub fn check_padded(s: &[u8]) -> Result<(), Fault>
    ensures { result ≡ padded_of s.now }
{
    if is_padded_ascii(s) {
        return Ok(());
    }
    let part = &s[..trimmed_len(s)];
    tell(is_utf8(part), !has_nul(part))
}

// Whether a byte of s is a NUL. There is no branch in it.
fn has_nul(s: &[u8]) -> bool
    ensures { result ≡ among 0 s.now }
{
    let mut found = false;
    for &b in s {
        found |= b == 0;
    }
    found
}

// Whether every byte of s is below 128 and only NULs follow a NUL. Sixteen bytes are looked at together, each with the one
// before it; the last sixteen once more.
pub fn is_padded_ascii(s: &[u8]) -> bool
    ensures { result ≡ (ascii s.now && nul_padded s.now) }
{
    if s.len() == 0 {
        return true;
    }
    if 128 <= s[0] {
        return false;
    }
    let last = s.len() - 1;
    if last < 16 {
        return good_pairs(s, 0, last);
    }
    // Kept as a while: over a range of the sixteens it took a tenth to a fifth longer for texts of 71 bytes and more.
    let mut i = 0;
    while i + 16 < last {
        if !good_pairs(s, i, 16) {
            return false;
        }
        i += 16;
    }
    good_pairs(s, last - 16, 16)
}

// Whether each of the texts of `width` bytes that s is made of is below 128 and has only NULs after a NUL. What is left over at
// the end is not looked at.
pub fn are_padded_ascii(s: &[u8], width: usize) -> bool
    ensures { result ≡ each_padded width (length s.now / width) s.now }
{
    if width == 0 {
        return true;
    }
    for text in s.chunks_exact(width) {
        if !is_padded_ascii(text) {
            return false;
        }
    }
    true
}

// Whether each of the n bytes after place a is below 128, and follows no NUL where it is none. There is no branch in it.
fn good_pairs(s: &[u8], a: usize, n: usize) -> bool
    requires { a + n < length s.now }
    ensures { result ≡ good_pairs n (drop a s.now) }
{
    let mut all = true;
    for j in 0..n {
        all = all & good_pair(s[a + j], s[a + j + 1]);
    }
    all
}

// The same of one byte, and the byte before it.
fn good_pair(before: u8, b: u8) -> bool
    ensures { result ≡ good_pair before b }
{
    ((0 < before) | (b == 0)) & (b < 128)
}

// What is wrong with a text, by whether it is UTF-8 and whether only NULs follow a NUL.
fn tell(valid: bool, padded: bool) -> Result<(), Fault>
    ensures { result ≡ told valid padded }
{
    match (valid, padded) {
        (true, true) => Ok(()),
        (true, false) => Err(Fault::AfterNul),
        (false, _) => Err(Fault::NotUtf8),
    }
}
