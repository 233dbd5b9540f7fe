// The layout writer: rows of nine, with their text, to the bytes of a layout.
#![tactic(auto)]

mod cells;
mod parts;
mod sections;

ghost use Rattle.writer.specs.Write.{Writes};

use refusal::Refusal;

// Writes the layout of the rows at the front of the output: how many bytes, or what refuses the rows or the output, which is about no byte.
// Tries 90 to 95, then the rules with the symbol width and the sheet, then 96. A refusal leaves the output as it was, and so are the bytes
// past the length.
pub fn write_layout(
    rows: &[u32],
    text: &[u8],
    version: u16,
    width: u16,
    sheet: &[u16; 520],
    out: &mut [u8],
) -> Result<usize, Refusal>
    ensures { Writes sheet.now width version rows.now text.now out.old out.new result }
{
    let size = rules::check_rows(rows, text, true, width, sheet, false)?;
    if out.len() < size.bytes {
        return Err(Refusal {
            number: refusal::OUTPUT_SHORT,
            place: 0,
        });
    }
    let n = sections::put_layout(out, version as usize, rows, text, size);
    Ok(n)
}
