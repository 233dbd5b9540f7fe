// The header of a block: its tests and its fields.
ghost use Rattle.std.specs.Prelude.{◌≡◌, ◌+◌, ◌≤◌, ◌<◌, length, take, drop};
ghost use Rattle.codec.specs.Codec.{value};
ghost use Rattle.block_format.specs.Block.{header, width_of, is_schema, is_stype, is_stype_in};
ghost use Rattle.block_format.specs.Fields.{unless, end_of, fields_with};
ghost use Rattle.block.specs.Parts.{Fixed, OfHeader, refusal_of};

use block_format::Fields;
use metadata_lengths::MetadataLengths;
use padded::Fault;
use refusal::Refusal;

// Whether a header is accepted.
pub(crate) fn check_header(block: &[u8], v: MetadataLengths) -> Result<(), Refusal>
    requires { Fixed v block.now }
    ensures { result ≡ refusal_of ((header v).codec.parse 0 block.now 0) }
{
    let end = v.dataset_cstr_len;
    match padded::check_padded(&block[0..end]) {
        Ok(()) => {}
        Err(Fault::NotUtf8) => return refusal::refuse(refusal::DATASET_NOT_UTF8, 0),
        Err(Fault::AfterNul) => return refusal::refuse(refusal::DATASET_AFTER_NUL, 0),
    }
    if !is_schema(half(block, end)) {
        return refusal::refuse(refusal::SCHEMA, end);
    }
    let at = end + 26 + v.record_count_len;
    if !is_stype_in(block[at]) {
        return refusal::refuse(refusal::STYPE_IN, at);
    }
    if !is_stype(block[at + 1]) {
        return refusal::refuse(refusal::STYPE_OUT, at + 1);
    }
    Ok(())
}

// The symbol width of an accepted header.
pub(crate) fn symbol_width(block: &[u8], v: MetadataLengths) -> u16
    requires { Fixed v block.now }
    ensures { OfHeader v block.now (λ h. result ≡ width_of v h) }
{
    if v.symbol_cstr_len_len == 0 {
        return 22;
    }
    let at = v.dataset_cstr_len + 29 + v.record_count_len;
    half(block, at) as u16
}

// The fields of a block with an accepted header, given the layout's version and the counts of rows.
pub(crate) fn fields_of(
    block: &[u8],
    v: MetadataLengths,
    version: usize,
    sixes: usize,
    nines: usize,
) -> Fields
    requires { Fixed v block.now }
    ensures { OfHeader v block.now (λ h. result ≡ fields_with v h version sixes nines) }
{
    let end = v.dataset_cstr_len;
    let dataset = &block[0..end];
    let at = end + 26 + v.record_count_len;
    let schema = half(block, end);
    let stype_in = numbers::wide(block[at]) as u64;
    let limit = long(block, end + 18);
    Fields {
        dataset_len: text::trimmed_len(dataset),
        schema: present_unless(schema == 65535, schema),
        start: long(block, end + 2),
        end: end_of(long(block, end + 10)),
        limit: present_unless(limit == 0, limit),
        stype_in: present_unless(stype_in == 255, stype_in),
        stype_out: block[at + 1],
        ts_out: block[at + 2] != 0,
        symbol_cstr_len: symbol_width(block, v) as usize,
        layout_version: version,
        symbology_rows: sixes,
        layout_rows: nines,
    }
}

// Whether a schema's code is accepted: 65535 is none.
fn is_schema(n: u64) -> bool
    ensures { result ≡ is_schema n }
{
    n <= 19 || n == 65535
}

// Whether a stype's code is accepted.
fn is_stype(n: u8) -> bool
    ensures { result ≡ is_stype n }
{
    n <= 12
}

// Whether stype_in is accepted: 255 is none.
fn is_stype_in(n: u8) -> bool
    ensures { result ≡ is_stype_in n }
{
    n <= 12 || n == 255
}

fn present_unless(absent: bool, n: u64) -> Option<u64>
    ensures { result ≡ unless absent n }
{
    if absent { None } else { Some(n) }
}

// The end, which 0 and the largest number leave out.
fn end_of(n: u64) -> Option<u64>
    ensures { result ≡ end_of n }
{
    present_unless(n == 0 || n == u64::MAX, n)
}

// The u64 at `at`.
fn long(s: &[u8], at: usize) -> u64
    ensures { result ≡ value (take 8 (drop at s.now)) }
{
    filled_numbers::u64_of(s, at) as u64
}

// The u16 at `at`.
fn half(s: &[u8], at: usize) -> u64
    ensures { (result ≡ value (take 2 (drop at s.now))) × (result < 65536) }
{
    filled_numbers::u16_of(s, at) as u64
}
