// The C function that writes a whole start: prelude and block. Nothing here but a call of the layer.
#![tactic(auto)]

ghost use Rattle.c_write.specs.Numbers.{WriteBlockC};

// Writes prelude and block from fields, `rows` symbology rows by column, layout rows and a text; `out` gets the length written at 0. A
// refusal leaves the output and `out` as they were.
pub fn dbn_write_block(
    version: u8,
    fields: &[u64; 16],
    symbology: &[u32],
    rows: u64,
    layout: &[u32],
    text: &[u8],
    sheet: &[u16; 520],
    output: &mut [u8],
    out: &mut [u64; 16],
) -> u32
    ensures { WriteBlockC version fields.now symbology.now rows layout.now text.now sheet.now output.old out.old result output.new out.new }
{
    let count = rows as usize;
    match block_writer::write_block(
        version, fields, symbology, count, layout, text, sheet, output,
    ) {
        Ok(n) => {
            out[0] = n as u64;
            0
        }
        Err(e) => e.number,
    }
}
