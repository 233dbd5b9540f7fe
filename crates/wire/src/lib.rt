// Names and sections at a place of a slice. Any slice and any place get an answer.
#![tactic(auto)]

ghost use Rattle.std.specs.Prelude.{◌≡◌, ◌+◌, ◌<◌};
ghost use Rattle.codec.specs.Codec.{among};
ghost use Rattle.codec.specs.Telling.{fault};
ghost use Rattle.numbers.specs.Numbers.{Past};
ghost use Rattle.wire.specs.Reader.{all_tests, tests_of, name_at, text_fault, section_at, Lies};

use refusal::Refusal;

// The length of the name's text at `at`, which starts one byte later, and the place after its closing NUL.
pub fn name_at(s: &[u8], at: usize) -> Result<(usize, usize), Refusal>
    ensures { (result ≡ name_at all_tests s.now at) × Past 256 2 s.now at result }
{
    name_in(s, at, false)
}

// The same. Where `light` holds the text itself is not looked at.
pub fn name_in(s: &[u8], at: usize, light: bool) -> Result<(usize, usize), Refusal>
    ensures { (result ≡ name_at (tests_of light) s.now at) × Past 256 2 s.now at result }
{
    if numbers::left(s, at) < 1 {
        return refusal::refuse(refusal::LAYOUT_TRUNCATED, at);
    }
    let len = numbers::wide(s[at]);
    let b = at + 1;
    if numbers::left(s, b) < len {
        return refusal::refuse(refusal::LAYOUT_TRUNCATED, b);
    }
    let e = b + len;
    if let Some(why) = text_fault(&s[b..e], light) {
        return refusal::refuse(why, b);
    }
    if numbers::left(s, e) < 1 {
        return refusal::refuse(refusal::LAYOUT_TRUNCATED, e);
    }
    if s[e] != 0 {
        return refusal::refuse(refusal::NAME_NOT_CLOSED, e);
    }
    Ok((len, e + 1))
}

// Where the section at `at` has its body, and its end.
pub fn section_at(s: &[u8], at: usize) -> Result<(usize, usize), Refusal>
    ensures { (result ≡ section_at s.now at) × Lies s.now (at + 2) result }
{
    let (len, body) = numbers::u16_at(s, at, refusal::LAYOUT_TRUNCATED)?;
    if len < 2 {
        return refusal::refuse(refusal::SECTION_SHORT, at);
    }
    let n = len - 2;
    if numbers::left(s, body) < n {
        return refusal::refuse(refusal::LAYOUT_TRUNCATED, body);
    }
    Ok((body, body + n))
}

// A byte 0 stands in `s`.
pub fn has_nul(s: &[u8]) -> bool
    ensures { result ≡ among 0 s.now }
{
    s.contains(&0)
}

// The number that refuses a name's text, none where `light` holds. Plain texts, as most are, hold no NUL and are UTF-8.
fn text_fault(t: &[u8], light: bool) -> Option<u32>
    ensures { result ≡ fault (text_fault (tests_of light) t.now) }
{
    if light {
        return None;
    }
    if plain_text::is_plain(t) {
        return None;
    }
    if has_nul(t) {
        return Some(refusal::NAME_HOLDS_NUL);
    }
    if text::is_utf8(t) {
        None
    } else {
        Some(refusal::NAME_NOT_UTF8)
    }
}
