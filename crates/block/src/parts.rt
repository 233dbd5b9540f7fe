// What follows the header: the layout part and the symbology part.
ghost use Rattle.std.specs.Prelude.{◌≡◌, ◌+◌, ◌-◌, ◌≤◌, length, take, drop};
ghost use Rattle.block.specs.Parts.{in_block, span_at, SpanInside, section_at, layout_table, LayoutReads, SymbologyReads};

use super::LayoutFound;
use refusal::{
    LAYOUT_BELOW_4, LAYOUT_LENGTH_MISSING, LAYOUT_PAST_END, NO_LAYOUT, Refusal,
    SYMBOLOGY_LENGTH_MISSING, SYMBOLOGY_PAST_END,
};
use symbology::Section;

// The layout part at byte 100: read and ruled on in version 4, empty below.
pub(crate) fn layout_part(
    block: &[u8],
    has_layout: bool,
    width: u16,
    sheet: &[u16; 520],
) -> Result<LayoutFound, Refusal>
    requires { (100 ≤ length block.now) × (length block.now ≤ 4294967295) }
    ensures { LayoutReads has_layout sheet.now width block.now result }
{
    let (start, len) = span_at(block, 100, LAYOUT_LENGTH_MISSING, LAYOUT_PAST_END)?;
    let end = start + len;
    if !has_layout {
        if len == 0 {
            return Ok(LayoutFound {
                version: 0,
                rows: 0,
                end,
            });
        }
        return refusal::refuse(LAYOUT_BELOW_4, 100);
    }
    if len == 0 {
        return refusal::refuse(NO_LAYOUT, 100);
    }
    match engines::check_layout(&block[start..end], width, sheet) {
        Ok(layout::Accepted { version, rows }) => Ok(LayoutFound { version, rows, end }),
        Err(why) => Err(in_block(why, start)),
    }
}

// A layout's refusal in a block where the layout begins at `start`: its place counts from the block.
fn in_block(why: Refusal, start: usize) -> Refusal
    requires { start + why.place ≤ 4294967295 }
    ensures { result ≡ in_block start why }
{
    if refusal::has_place(why.number) {
        return Refusal {
            number: why.number,
            place: start + why.place,
        };
    }
    why
}

// The symbology part from `at` on, its rows in the table where `write` holds. In version 4 the contents span the section.
pub(crate) fn symbology_part(
    block: &[u8],
    at: usize,
    has_layout: bool,
    width: u16,
    write: bool,
    table: &mut [u32],
) -> Result<Section, Refusal>
    requires { (at ≤ length block.now) × (length block.now ≤ 4294967295) }
    ensures { SymbologyReads has_layout write width block.now at table.old table.new result }
{
    let (start, len) = section_at(block, at, has_layout)?;
    let end = start + len;
    let part = &block[start..end];
    match symbology::read_section_rows(part, start, width, has_layout, write, table) {
        Ok(section) => Ok(section),
        Err(why) => refusal::refuse(why.number, start + why.place),
    }
}

// The rows of the layout part that ends at `end`, in the table, where the version has a layout.
pub(crate) fn put_layout(block: &[u8], has_layout: bool, end: usize, table: &mut [u32])
    requires { (104 ≤ end) × (end ≤ length block.now) }
    ensures { table.new ≡ layout_table has_layout (take (end - 104) (drop 104 block.now)) table.old }
{
    if has_layout {
        let start = 104;
        let part = &block[start..end];
        let _ = layout::read_layout_rows(part, true, table);
    }
}

// The bytes of the symbology from `at` on: a section in version 4, the rest below.
fn section_at(block: &[u8], at: usize, has_layout: bool) -> Result<(usize, usize), Refusal>
    requires { at ≤ length block.now }
    ensures { (result ≡ section_at has_layout block.now at) × SpanInside block.now at result }
{
    if has_layout {
        return span_at(block, at, SYMBOLOGY_LENGTH_MISSING, SYMBOLOGY_PAST_END);
    }
    Ok((at, block.len() - at))
}

// Where the bytes stand that a u32 length at `at` announces; `missing` where there is no length, `past` where they run past the end.
fn span_at(block: &[u8], at: usize, missing: u32, past: u32) -> Result<(usize, usize), Refusal>
    requires { at ≤ length block.now }
    ensures { (result ≡ span_at missing past block.now at) × SpanInside block.now (at + 4) result }
{
    if block.len() - at < 4 {
        return refusal::refuse(missing, at);
    }
    let start = at + 4;
    let len = filled_numbers::u32_of(block, at);
    if block.len() - start < len {
        return refusal::refuse(past, start);
    }
    Ok((start, len))
}
