// A walk over the bytes of a layout, section by section, for the first untidy thing. Names are stepped over by their lengths.
// Each step answers the place where it ends, or the first untidy thing in it.
ghost use Rattle.std.specs.Prelude.{◌≡◌, ◌+◌, ◌*◌, ◌<◌, ◌^◌, Err};
ghost use Rattle.codec.specs.Codec.{refusal};
ghost use Rattle.tidy.specs.Kinds.{number};
ghost use Rattle.tidy.specs.Walk.{Near, zeros_from, entries_from, names_from, labels_from, items_from, closing, own_bytes, section_from, sections_from, group_from, layout_met};

use refusal::Refusal;

// What a group has sections of.
#[derive(Clone, Copy)]
enum Kind {
    Record,
    Struct,
    LabelDef,
}

// Records, structs, label defs, and what is left over after them.
pub(crate) fn layout_met(s: &[u8]) -> Result<usize, Refusal>
    ensures { result ≡ layout_met s.now }
{
    let structs_at = group(Kind::Record, s, 2)?;
    let labels_at = group(Kind::Struct, s, structs_at)?;
    let end = group(Kind::LabelDef, s, labels_at)?;
    closing(refusal::LEFTOVER_AFTER_LABELS, end, s.len())
}

// A count and as many sections.
fn group(kind: Kind, s: &[u8], at: usize) -> Result<usize, Refusal>
    requires { at < 2 ^ 48 }
    ensures { (result ≡ group_from (number kind) s.now at) × Near at (2 ^ 40) result }
{
    let count = filled_numbers::u16_of(s, at);
    sections(kind, s, at + 2, count)
}

fn sections(kind: Kind, s: &[u8], at: usize, count: usize) -> Result<usize, Refusal>
    requires { (at < 2 ^ 50) × (count < 65536) }
    ensures { (result ≡ sections_from (number kind) s.now at count) × Near at (65536 * count) result }
{
    let mut p = at;
    for _ in 0..count {
        p = section(kind, s, p)?;
    }
    Ok(p)
}

// The section at a place: its fields or labels, and what is left over in it.
fn section(kind: Kind, s: &[u8], at: usize) -> Result<usize, Refusal>
    requires { at < 2 ^ 52 }
    ensures { (result ≡ section_from (number kind) s.now at) × Near at 65536 result }
{
    let name = at + own_bytes(kind);
    let count_at = name + filled_numbers::u8_of(s, name) + 2;
    let count = filled_numbers::u16_of(s, count_at);
    let p = items(kind, s, count_at + 2, count)?;
    let len = filled_numbers::u16_of(s, at);
    closing(refusal::LEFTOVER_IN_SECTION, p, at + len)
}

// How far from a section's place its name is.
fn own_bytes(kind: Kind) -> usize
    ensures { (result ≡ own_bytes (number kind)) × (result < 17) }
{
    match kind {
        Kind::Record => 16,
        Kind::Struct => 4,
        Kind::LabelDef => 2,
    }
}

// Labels, or entries and their names.
fn items(kind: Kind, s: &[u8], at: usize, count: usize) -> Result<usize, Refusal>
    requires { (at < 2 ^ 54) × (count < 65536) }
    ensures { result ≡ items_from (number kind) s.now at count }
{
    match kind {
        Kind::LabelDef => labels(s, at, count),
        Kind::Record => fields(s, at, count),
        Kind::Struct => fields(s, at, count),
    }
}

// Entries, and then their names.
fn fields(s: &[u8], at: usize, count: usize) -> Result<usize, Refusal>
    requires { (at < 2 ^ 54) × (count < 65536) }
    ensures { result ≡ items_from 0 s.now at count }
{
    let p = entries(s, at, count)?;
    Ok(names_end(s, p, count))
}

// Entries whose skipped bytes are zeros.
fn entries(s: &[u8], at: usize, count: usize) -> Result<usize, Refusal>
    requires { (at < 2 ^ 56) × (count < 65536) }
    ensures { (result ≡ entries_from s.now at count) × Near at (65536 * count) result }
{
    let mut p = at;
    for _ in 0..count {
        p = zeros(s, p + 11, layout::D - 11)?;
    }
    Ok(p)
}

// `count` bytes from a place on that are zero.
fn zeros(s: &[u8], at: usize, count: usize) -> Result<usize, Refusal>
    requires { (at < 2 ^ 58) × (count < 65536) }
    ensures { (result ≡ zeros_from s.now at count) × Near at count result }
{
    for p in at..at + count {
        if filled_numbers::u8_of(s, p) != 0 {
            return refusal::refuse(refusal::SKIPPED_NOT_ZERO, p);
        }
    }
    Ok(at + count)
}

// The place after `count` names.
fn names_end(s: &[u8], at: usize, count: usize) -> usize
    requires { (at < 2 ^ 58) × (count < 65536) }
    ensures { result ≡ names_from s.now at count }
{
    let mut p = at;
    for _ in 0..count {
        p += filled_numbers::u8_of(s, p) + 2;
    }
    p
}

// Labels whose codes rise.
fn labels(s: &[u8], at: usize, count: usize) -> Result<usize, Refusal>
    requires { (at < 2 ^ 56) × (count < 65536) }
    ensures { result ≡ labels_from s.now at 0 count }
{
    let mut p = at;
    let mut least = 0;
    for _ in 0..count {
        let code = filled_numbers::u16_of(s, p);
        if code < least {
            return refusal::refuse(refusal::CODES_NOT_RISING, p);
        }
        least = code + 1;
        p += 4 + filled_numbers::u8_of(s, p + 2);
    }
    Ok(p)
}

// What ends at `end`, and its contents at `p`: the first byte that is left over, if there is one.
fn closing(number: u32, p: usize, end: usize) -> Result<usize, Refusal>
    ensures { result ≡ closing number p end }
{
    if end <= p {
        return Ok(end);
    }
    refusal::refuse(number, p)
}
