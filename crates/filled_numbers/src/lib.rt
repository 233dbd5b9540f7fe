// Numbers at a place of a slice, where a byte past the end counts as 0. Any slice and any place get an answer.
#![tactic(auto)]

ghost use Rattle.std.specs.Prelude.{◌≡◌, ◌+◌, ◌<◌, get_or, drop};
ghost use Rattle.numbers.specs.Numbers.{le16, le32, le64};

// The byte at `at`.
pub fn u8_of(s: &[u8], at: usize) -> usize
    ensures { (result ≡ get_or s.now at 0) × (result < 256) }
{
    if at < s.len() {
        numbers::wide(s[at])
    } else {
        0
    }
}

// The three below are each two of the narrower one, in a line. One function over the width would be a loop, with powers of 256 in its
// clauses: no plainer.

// The u16 at `at`.
pub fn u16_of(s: &[u8], at: usize) -> usize
    ensures { (result ≡ le16 s.now at) × (result < 65536) }
{
    u8_of(s, at) + 256 * u8_of(s, ahead(s, at, 1))
}

// The u32 at `at`.
pub fn u32_of(s: &[u8], at: usize) -> usize
    ensures { (result ≡ le32 s.now at) × (result < 4294967296) }
{
    u16_of(s, at) + 65536 * u16_of(s, ahead(s, at, 2))
}

// The u64 at `at`.
pub fn u64_of(s: &[u8], at: usize) -> usize
    ensures { result ≡ le64 s.now at }
{
    u32_of(s, at) + 4294967296 * u32_of(s, ahead(s, at, 4))
}

// The place n bytes after `at`, or the end where that comes first.
fn ahead(s: &[u8], at: usize, n: usize) -> usize
    ensures { drop result s.now ≡ drop (at + n) s.now }
{
    if n <= numbers::left(s, at) {
        at + n
    } else {
        s.len()
    }
}
