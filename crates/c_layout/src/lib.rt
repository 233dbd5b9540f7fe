// C functions for a layout: read, ruled on by marks alone, and written. Nothing here but calls of the layers.
#![tactic(auto)]

ghost use Rattle.c_layout.specs.Numbers.{LayoutC, LayoutPlainC, WriteC};

use layout::ReadError;

// Reads a layout given with a symbol width, its rows into the table. `out` gets the version at 9 and the rows at 11; with 3 the rows
// needed at 11; with 50 to 55 the place in the layout at 13. All else in `out` is as it was.
pub fn dbn_layout(
    layout: &[u8],
    width: u16,
    sheet: &[u16; 520],
    rows: &mut [u32],
    out: &mut [u64; 16],
) -> u32
    ensures { LayoutC layout.now width sheet.now rows.old out.old result rows.new out.new }
{
    match given_layout::read_layout(layout, width, sheet, rows) {
        Ok(read) => {
            out[9] = read.version as u64;
            out[11] = read.rows as u64;
            0
        }
        Err(ReadError::Short(needed)) => {
            out[11] = needed.rows as u64;
            refusal::TABLE_SHORT
        }
        Err(ReadError::Refused(e)) => {
            c_texts::put_place(e, out);
            e.number
        }
    }
}

// The verdict on a layout given with a symbol width, with 81 to 83 by the plain engine: the answer of dbn_layout, without a table.
// `out` gets the version at 9 and the rows at 11, or with 50 to 55 the place in the layout at 13.
pub fn dbn_layout_plain(layout: &[u8], width: u16, sheet: &[u16; 520], out: &mut [u64; 16]) -> u32
    ensures { LayoutPlainC layout.now width sheet.now out.old result out.new }
{
    match engines::check_layout_plain(layout, width, sheet) {
        Ok(accepted) => {
            out[9] = accepted.version as u64;
            out[11] = accepted.rows as u64;
            0
        }
        Err(e) => {
            c_texts::put_place(e, out);
            e.number
        }
    }
}

// Writes layout rows, whose names are parts of the text, as a layout of a version; `out` gets the length written at 0.
pub fn dbn_write_layout(
    rows: &[u32],
    text: &[u8],
    version: u16,
    width: u16,
    sheet: &[u16; 520],
    output: &mut [u8],
    out: &mut [u64; 16],
) -> u32
    ensures { WriteC rows.now text.now version width sheet.now output.old out.old result output.new out.new }
{
    match writer::write_layout(rows, text, version, width, sheet, output) {
        Ok(n) => {
            out[0] = n as u64;
            0
        }
        Err(e) => e.number,
    }
}
