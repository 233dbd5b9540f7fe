// Whole starts of streams, written: prelude and block of versions 1 to 4, from fields, symbology rows by column, layout rows and a text.
#![tactic(auto)]

mod columns;
mod given;
mod judge;
mod parts;

ghost use Rattle.std.specs.Prelude.{◌≡◌};
ghost use Rattle.codec.specs.Codec.{refusal};
ghost use Rattle.put.specs.Output.{RoomFor, Wrote};
ghost use Rattle.block_writer.specs.Write.{start_bytes, WritesBlock};
ghost use Rattle.block_writer.specs.Plan.{Sizes};

use refusal::Refusal;

// What is about to be written: the bytes of the block, of its layout and of its symbology; and how many symbols of each list and how many
// mappings there are.
#[derive(Clone, Copy)]
pub struct Plan {
    pub len: usize,
    pub layout: usize,
    pub names: usize,
    pub symbols: usize,
    pub partial: usize,
    pub not_found: usize,
    pub mappings: usize,
}

// Writes prelude and block at the front of the output: `fields` are as a reader gives them, with the dataset's start in the text at 13; the
// table has `count` symbology rows by column; names and symbols are parts of the text. The length written; or 11, 110, 111, 90 to 95, the
// reader's number for the block that would be written, or 112. A refusal leaves the output as it was, and so are the bytes past the length.
pub fn write_block(
    version: u8,
    fields: &[u64; 16],
    table: &[u32],
    count: usize,
    rows: &[u32],
    text: &[u8],
    sheet: &[u16; 520],
    out: &mut [u8],
) -> Result<usize, Refusal>
    ensures { WritesBlock sheet.now version fields.now table.now count rows.now text.now out.old out.new result }
{
    let plan = judge::judge(version, fields, table, count, rows, text, sheet)?;
    let whole = 8 + plan.len;
    if out.len() < whole {
        return Err(refused(refusal::START_OUTPUT_SHORT));
    }
    put_start(out, version, fields, table, count, rows, text, sheet, plan);
    Ok(whole)
}

// Prelude, header, layout and symbology, one after the other.
fn put_start(
    out: &mut [u8],
    version: u8,
    fields: &[u64; 16],
    table: &[u32],
    count: usize,
    rows: &[u32],
    text: &[u8],
    sheet: &[u16; 520],
    p: Plan,
) -> usize
    requires sizes { Sizes sheet.now version fields.now table.now count rows.now text.now p }
    requires room_for { RoomFor 0 (start_bytes sheet.now version fields.now table.now count rows.now text.now) out.old }
    ensures { Wrote 0 (start_bytes sheet.now version fields.now table.now count rows.now text.now) out.old out.new result }
{
    let has = version == 4;
    let width = fields[8] as usize;
    let a = parts::put_prelude(out, version, p.len);
    let b = header_bytes::put_header(out, a, version, fields, given::dataset(fields, text));
    let c = parts::put_layout(out, b, has, fields, rows, text, sheet, p.layout);
    columns::put_symbology(out, c, has, p.names, p, table, count, text, width)
}

// The refusal by that number, which is about no byte.
fn refused(number: u32) -> Refusal
    ensures { result ≡ refusal number 0 }
{
    Refusal { number, place: 0 }
}
