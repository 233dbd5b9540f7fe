// Numbers and bytes at a place of a slice. Any slice and any place get an answer: what was read and the place after it, or a refusal.
#![tactic(auto)]

ghost use Rattle.std.specs.Prelude.{◌≡◌, ◌+◌, ◌-◌, ◌*◌, ◌≤◌, ◌<◌, length};
ghost use Rattle.numbers.specs.Numbers.{take_at, num_at, le16, Past};

use refusal::Refusal;

// How many bytes are left at `at`; none past the end.
pub fn left(s: &[u8], at: usize) -> usize
    ensures { result ≡ length s.now - at }
{
    if at <= s.len() { s.len() - at } else { 0 }
}

// The place after n bytes from `at` on; `why` at `at` where they run past the end.
pub fn take(s: &[u8], at: usize, n: usize, why: u32) -> Result<(usize, usize), Refusal>
    ensures { (result ≡ take_at why n s.now at) × Past (n + 1) n s.now at result }
{
    if at <= s.len() && n <= s.len() - at {
        return Ok((n, at + n));
    }
    Err(Refusal {
        number: why,
        place: at,
    })
}

// The u16 at `at`; `why` at `at` where it runs past the end.
pub fn u16_at(s: &[u8], at: usize, why: u32) -> Result<(usize, usize), Refusal>
    ensures { (result ≡ num_at why 2 s.now at) × Past 65536 2 s.now at result }
{
    if 2 <= left(s, at) {
        Ok((half(s, at), at + 2))
    } else {
        Err(Refusal {
            number: why,
            place: at,
        })
    }
}

// The u32 at `at`; `why` at `at` where it runs past the end.
pub fn u32_at(s: &[u8], at: usize, why: u32) -> Result<(usize, usize), Refusal>
    ensures { (result ≡ num_at why 4 s.now at) × Past 4294967296 4 s.now at result }
{
    if 4 <= left(s, at) {
        Ok((half(s, at) + 65536 * half(s, at + 2), at + 4))
    } else {
        Err(Refusal {
            number: why,
            place: at,
        })
    }
}

// A byte, as wide as lengths and places are.
pub fn wide(x: u8) -> usize
    ensures { (result ≡ x) × (result < 256) }
{
    x as usize
}

// The u16 at `at`, which ends within s.
fn half(s: &[u8], at: usize) -> usize
    requires { at + 2 ≤ length s.now }
    ensures { (result ≡ le16 s.now at) × (result < 65536) }
{
    wide(s[at]) + 256 * wide(s[at + 1])
}
