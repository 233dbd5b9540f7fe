// The symbology of a block: three lists of symbols and the mappings, read into rows of six, by column.
#![tactic(auto)]

mod lists;
mod mappings;

ghost use Rattle.std.specs.Prelude.{◌≡◌, ◌<◌};
ghost use Rattle.table.specs.Table.{put_columns, Room, Ran};
ghost use Rattle.symbology_rows.specs.Reader.{symbology_at, symbology_of};
ghost use Rattle.symbology_rows.specs.Answers.{found, RowsPromise};

use lists::list;
use mappings::mapped;
use refusal::Refusal;

// A symbology that was accepted: its rows, which were written or only counted, and the place after it.
#[derive(Clone, Copy)]
pub enum Rows {
    Read { rows: usize, next: usize },
    Counted { rows: usize, next: usize },
}

// The rows of the symbology of this width in s, whose first byte is byte `base` of the block: 13 where that block has more than
// 4,294,967,295 bytes. The table is written where all is accepted, `write` holds, the symbology ends at `least` or after it, and the
// table is long enough. The place of a refusal counts in s.
pub fn read_rows(
    s: &[u8],
    base: usize,
    width: u16,
    write: bool,
    least: usize,
    table: &mut [u32],
) -> Result<Rows, Refusal>
    ensures { RowsPromise write least (symbology_of width base s.now) table.old table.new result }
{
    let (rows, next) = symbology_verdict(s, base, width)?;
    if write && least <= next && rows <= table.len() / 6 {
        let _ = symbology(s, 0, width as usize, true, base, table);
        return Ok(Rows::Read { rows, next });
    }
    Ok(Rows::Counted { rows, next })
}

// The verdict on the symbology of this width in s, whose first byte is byte `base` of the block: how many rows it has, and the place
// after it.
fn symbology_verdict(s: &[u8], base: usize, width: u16) -> Result<(usize, usize), Refusal>
    ensures { result ≡ found (symbology_of width base s.now) }
{
    if s.len() > 4294967295 || base > 4294967295 - s.len() {
        return Err(Refusal {
            number: refusal::SIZE,
            place: 0,
        });
    }
    let mut none = [0u32; 1];
    symbology(s, 0, width as usize, false, base, &mut none)
}

// Three lists and the mappings. Where `light` holds, texts and dates are not tested.
fn symbology(
    s: &[u8],
    at: usize,
    width: usize,
    light: bool,
    base: usize,
    table: &mut [u32],
) -> Result<(usize, usize), Refusal>
    requires room { Room base s.now at 0 }
    requires width_bound { width < 65536 }
    ensures { Ran (put_columns 6) base s.now (symbology_at light width base s.now at) 0 table.old table.new result }
{
    let (a, p) = list(s, at, 0, width, light, base, table, 0)?;
    let (b, q) = list(s, p, 1, width, light, base, table, a)?;
    let (c, r) = list(s, q, 2, width, light, base, table, b)?;
    mapped(s, r, width, light, base, table, c)
}
