// What is about to be written, before a byte of it is.
ghost use Rattle.std.specs.Prelude.{◌≡◌, true, false, cond, ◌+◌, ◌-◌, ◌*◌, ◌≤◌};
ghost use Rattle.std.specs.Result.{MatchResult};
ghost use Rattle.codec.specs.Codec.{is_nil, refusal};
ghost use Rattle.codec.specs.Faults.{unless};
ghost use Rattle.rules.specs.RowRules.{rows_rules};
ghost use Rattle.rows_check.specs.Check.{fault};
ghost use Rattle.prelude.specs.Prelude.{is_version};
ghost use Rattle.codec.specs.Telling.{passed};
ghost use Rattle.columns_check.specs.ToldLaws.{Told};
ghost use Rattle.header_bytes.specs.Numbers.{width};
ghost use Rattle.block_writer.specs.Plan.{Ready, Planned};

use super::{Plan, given, refused};
use columns_check::Counts;
use refusal::Refusal;

// How long all is, or what refuses to write.
pub(crate) fn judge(
    version: u8,
    fields: &[u64; 16],
    table: &[u32],
    count: usize,
    rows: &[u32],
    text: &[u8],
    sheet: &[u16; 520],
) -> Result<Plan, Refusal>
    ensures { Planned sheet.now version fields.now table.now count rows.now text.now result }
{
    holds(is_version(version), refusal::VERSION)?;
    holds(
        given::are_fit(version, fields, text),
        refusal::START_MALFORMED,
    )?;
    let counts = columns_check::check_columns(table, count, text, fields[8] as usize)?;
    holds(given::are_narrow(version, fields), refusal::TEXT_WIDE)?;
    with_layout(version, fields, table, count, rows, text, sheet, counts)
}

// The refusal by that number, where the test does not hold.
fn holds(test: bool, number: u32) -> Result<(), Refusal>
    ensures { MatchResult result (λ _. test ≡ true) (λ e. (test ≡ false) × (e ≡ refusal number 0)) }
{
    if test { Ok(()) } else { Err(refused(number)) }
}

// Whether a version is one of 1 to 4.
fn is_version(version: u8) -> bool
    ensures { result ≡ is_version version }
{
    if version < 1 {
        return false;
    }
    version <= 4
}

// The plan of well-formed columns and fields: 90 to 95, 13, then the header, the layout and the symbology.
fn with_layout(
    version: u8,
    fields: &[u64; 16],
    table: &[u32],
    count: usize,
    rows: &[u32],
    text: &[u8],
    sheet: &[u16; 520],
    counts: Counts,
) -> Result<Plan, Refusal>
    requires ready { Ready version fields.now table.now count text.now }
    requires told { Told (width fields.now) table.now count text.now counts }
    ensures { Planned sheet.now version fields.now table.now count rows.now text.now result }
{
    let size = rows_check::layout_size(rows, text, true)?;
    let width = given::number(fields, 8);
    let has = version == 4;
    let layout = layout_len(has, rows, size.bytes);
    let names = names_len(width as usize, count, counts);
    let len = 104 + layout + length_len(has) + names;
    holds(len <= 4294967295, refusal::SIZE)?;
    given::header_fault(version, fields, text)?;
    layout_fault(has, rows, text, width as u16, sheet)?;
    counts.fault?;
    Ok(Plan {
        len,
        layout,
        names,
        symbols: counts.symbols,
        partial: counts.partial,
        not_found: counts.not_found,
        mappings: counts.mappings,
    })
}

// The bytes of the symbology: four counts, the symbols, a count for each mapping, and two dates for each interval.
fn names_len(width: usize, count: usize, counts: Counts) -> usize
    requires { (width * count ≤ 281470681677825) × ((count ≤ 4294967295) × (counts.symbols + counts.partial + counts.not_found + counts.mappings ≤ count)) }
    ensures { result ≡ 16 + width * count + 4 * counts.mappings + 8 * (count - (counts.symbols + counts.partial + counts.not_found) - counts.mappings) }
{
    let lists = counts.symbols + counts.partial + counts.not_found;
    let spans = count - lists - counts.mappings;
    16 + width * count + 4 * counts.mappings + 8 * spans
}

// The bytes of the layout, which are `bytes` where it is written: below version 4 none where there are no rows.
fn layout_len(has: bool, rows: &[u32], bytes: usize) -> usize
    ensures { result ≡ cond has bytes (cond (is_nil rows.now) 0 bytes) }
{
    if has {
        return bytes;
    }
    if rows.len() == 0 {
        return 0;
    }
    bytes
}

// The bytes of the symbology's length, which version 4 has.
fn length_len(has: bool) -> usize
    ensures { (result ≡ cond has 4 0) × (result ≤ 4) }
{
    if has {
        return 4;
    }
    0
}

// What the reader would refuse the layout by: its rules, or 25 for rows below version 4.
fn layout_fault(
    has: bool,
    rows: &[u32],
    text: &[u8],
    width: u16,
    sheet: &[u16; 520],
) -> Result<(), Refusal>
    requires { fault true rows.now text.now ≡ 0 }
    ensures { result ≡ passed (cond has (rows_rules sheet.now width rows.now text.now) (unless (is_nil rows.now) 25)) }
{
    if has {
        rules::check_rows(rows, text, true, width, sheet, false)?;
        return Ok(());
    }
    if rows.len() == 0 {
        return Ok(());
    }
    Err(refused(refusal::LAYOUT_BELOW_4))
}
