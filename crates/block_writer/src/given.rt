// The fields given: which are malformed, which are too wide, and by which number the reader would refuse them.
ghost use Rattle.std.specs.Prelude.{◌≡◌, true, ◌&&◌, cond, ◌<◌, leb, ltb, eqb, length, get_or};
ghost use Rattle.block_format.specs.BlockFaults.{header_fault};
ghost use Rattle.codec.specs.Telling.{passed};
ghost use Rattle.header_bytes.specs.Header.{header_of};
ghost use Rattle.header_bytes.specs.Numbers.{has};
ghost use Rattle.block_writer.specs.Fields.{option_fits, options_fit, numbers_fit, dataset_fits, fields_fit, fields_narrow, dataset_text};
ghost use Rattle.block_writer.specs.PlanLaws.{Small};

use super::refused;
use padded::Fault;
use refusal::Refusal;

// Whether presence bit `bit` is set.
pub(crate) fn has(fields: &[u64; 16], bit: u64) -> bool
    requires { 0 < bit }
    ensures { result ≡ has bit fields.now }
{
    fields[12] / bit % 2 == 1
}

// Field i. Eight bytes hold it, as each of them.
pub(crate) fn number(fields: &[u64], i: usize) -> u64
    requires { i < length fields.now }
    ensures { (result ≡ get_or fields.now i 0) × Small fields.now }
{
    fields[i]
}

// Whether no field is malformed.
pub(crate) fn are_fit(version: u8, fields: &[u64; 16], text: &[u8]) -> bool
    ensures { result ≡ fields_fit version fields.now text.now }
{
    if !options_fit(fields) {
        return false;
    }
    if !numbers_fit(version, fields) {
        return false;
    }
    dataset_fits(fields, text)
}

// Whether x, whose presence bit is given, passes its test where it is present, and is 0 where it is not.
fn option_fits(fields: &[u64; 16], bit: u64, fits: bool, x: u64) -> bool
    requires { 0 < bit }
    ensures { result ≡ option_fits (has bit fields.now) fits x }
{
    if has(fields, bit) {
        return fits;
    }
    x == 0
}

fn options_fit(fields: &[u64; 16]) -> bool
    ensures { result ≡ options_fit fields.now }
{
    if 15 < fields[12] {
        return false;
    }
    if !option_fits(fields, 1, fields[1] < 65535, fields[1]) {
        return false;
    }
    if !option_fits(fields, 2, is_end(fields[3]), fields[3]) {
        return false;
    }
    if !option_fits(fields, 4, 0 < fields[4], fields[4]) {
        return false;
    }
    option_fits(fields, 8, fields[5] < 255, fields[5])
}

// Whether an end can be present: 0 and the largest number are absent.
fn is_end(n: u64) -> bool
    ensures { result ≡ (ltb 0 n && ltb n 18446744073709551615) }
{
    if n == 0 {
        return false;
    }
    n < 18446744073709551615
}

fn numbers_fit(version: u8, fields: &[u64; 16]) -> bool
    ensures { result ≡ numbers_fit version fields.now }
{
    if 255 < fields[6] {
        return false;
    }
    if 1 < fields[7] {
        return false;
    }
    if !width_fits(version, fields[8]) {
        return false;
    }
    if version == 4 {
        return fields[9] <= 65535;
    }
    fields[9] == 0
}

// Whether the width fits its two bytes; version 1 has no place for it.
fn width_fits(version: u8, width: u64) -> bool
    ensures { result ≡ cond (eqb version 1) true (leb width 65535) }
{
    if version == 1 {
        return true;
    }
    width <= 65535
}

fn dataset_fits(fields: &[u64; 16], text: &[u8]) -> bool
    ensures { result ≡ dataset_fits fields.now text.now }
{
    let start = fields[13] as usize;
    let len = fields[0] as usize;
    if text.len() < start {
        return false;
    }
    if text.len() - start < len {
        return false;
    }
    let part = &text[start..start + len];
    text::trimmed_len(part) == len
}

// Whether the dataset is no wider than its field, and version 1's width is 22.
pub(crate) fn are_narrow(version: u8, fields: &[u64; 16]) -> bool
    ensures { result ≡ fields_narrow version fields.now }
{
    let v = metadata_lengths::lengths_of(version);
    if v.dataset_cstr_len < fields[0] as usize {
        return false;
    }
    if version == 1 {
        return fields[8] == 22;
    }
    true
}

// The dataset, a part of the text.
pub(crate) fn dataset<'a>(fields: &[u64; 16], text: &'a [u8]) -> &'a [u8]
    requires { dataset_fits fields.now text.now ≡ true }
    ensures { result.now ≡ dataset_text fields.now text.now }
{
    let start = fields[13] as usize;
    &text[start..start + fields[0] as usize]
}

// What the reader would refuse the header by: 20, 29, 21, 22, 23.
pub(crate) fn header_fault(version: u8, fields: &[u64; 16], text: &[u8]) -> Result<(), Refusal>
    requires { fields_fit version fields.now text.now ≡ true }
    ensures { result ≡ passed (header_fault (header_of version fields.now (dataset_text fields.now text.now))) }
{
    match padded::check_padded(dataset(fields, text)) {
        Ok(()) => {}
        Err(Fault::NotUtf8) => return Err(refused(refusal::DATASET_NOT_UTF8)),
        Err(Fault::AfterNul) => return Err(refused(refusal::DATASET_AFTER_NUL)),
    }
    if 19 < fields[1] {
        return Err(refused(refusal::SCHEMA));
    }
    if 12 < fields[5] {
        return Err(refused(refusal::STYPE_IN));
    }
    if 12 < fields[6] {
        return Err(refused(refusal::STYPE_OUT));
    }
    Ok(())
}
