// One row of the symbology, lent by column, stored as the bytes that it stands for.
#![tactic(auto)]

ghost use Rattle.std.specs.Prelude.{◌≡◌, ◌&&◌, ◌+◌, ◌≤◌, length, leb};
ghost use Rattle.put.specs.Output.{RoomFor, Wrote, Stored};
ghost use Rattle.dates.specs.Day.{date_of_day};
ghost use Rattle.columns_check.specs.Tree.{filled};
ghost use Rattle.columns_check.specs.Check.{is_day};
ghost use Rattle.columns_check.specs.PrintLaws.{printed_row};
ghost use Rattle.row_bytes.specs.Row.{row_stands, more_of, row_bytes};
ghost use Rattle.row_bytes.specs.RowLaws.{Standing};

// The bytes of row r, from `at` on, for symbols of this width; the place after them. Where they run past the end of the output, or the row
// cannot stand in a symbology, nothing is stored and the answer is the place given.
pub fn put_row(
    out: &mut [u8],
    at: usize,
    table: &[u32],
    text: &[u8],
    width: usize,
    r: usize,
) -> usize
    ensures { Stored at (row_bytes width table.now text.now r) out.old out.new result }
{
    if !stands(table, text, width, r) {
        return at;
    }
    let more = more_of(table::number_at(table, r, 0));
    if !has_room(out.len(), at, width, more) {
        return at;
    }
    store_row(out, at, table, text, width, r)
}

// Whether the text of row r is there and no wider than the width, its kind is one of 0 to 4, and an interval's days are days.
fn stands(table: &[u32], text: &[u8], width: usize, r: usize) -> bool
    ensures { result ≡ row_stands width table.now text.now r }
{
    let start = table::number_at(table, r, 1) as usize;
    let len = table::number_at(table, r, 2) as usize;
    if text.len() < start + len {
        return false;
    }
    if width < len {
        return false;
    }
    let kind = table::number_at(table, r, 0);
    if kind == 4 {
        return are_days(table::number_at(table, r, 3), table::number_at(table, r, 4));
    }
    kind < 4
}

// Whether both are days of the calendar.
fn are_days(x: u32, y: u32) -> bool
    ensures { result ≡ (is_day x && is_day y) }
{
    if 3652424 < x {
        return false;
    }
    y <= 3652424
}

// The bytes of a row beside its text: an interval has two dates, a mapping a count.
fn more_of(kind: u32) -> usize
    ensures { result ≡ more_of kind }
{
    if kind == 4 {
        return 8;
    }
    if kind == 3 {
        return 4;
    }
    0
}

// Whether a text of this width and `more` bytes end within `len`.
fn has_room(len: usize, at: usize, width: usize, more: usize) -> bool
    ensures { result ≡ leb (at + (width + more)) len }
{
    if len < more {
        return false;
    }
    if len - more < width {
        return false;
    }
    at <= len - more - width
}

// The bytes of row r: of an interval its dates and its symbol, of a mapping its symbol and the count of its intervals, else a symbol.
fn store_row(out: &mut [u8], at: usize, table: &[u32], text: &[u8], width: usize, r: usize) -> usize
    requires standing { Standing width table.now text.now r }
    requires room_for { RoomFor at (printed_row width table.now text.now r) out.old }
    ensures { Wrote at (printed_row width table.now text.now r) out.old out.new result }
{
    let kind = table::number_at(table, r, 0);
    let x = table::number_at(table, r, 3);
    let start = table::number_at(table, r, 1) as usize;
    let end = start + table::number_at(table, r, 2) as usize;
    if kind == 4 {
        let a = put::put_little(out, at, date(x), 4);
        let b = put::put_little(out, a, date(table::number_at(table, r, 4)), 4);
        return put_text(out, b, &text[start..end], width);
    }
    let a = put_text(out, at, &text[start..end], width);
    if kind == 3 {
        return put::put_little(out, a, x as usize, 4);
    }
    a
}

// A text, filled up with NULs to its width.
fn put_text(out: &mut [u8], at: usize, part: &[u8], width: usize) -> usize
    requires part_len_bound { length part.now ≤ width }
    requires room_for { RoomFor at (filled width part.now) out.old }
    ensures { Wrote at (filled width part.now) out.old out.new result }
{
    let a = put::put_bytes(out, at, part);
    put::put_zeros(out, a, width - part.len())
}

// The date of a day, as it is stored.
fn date(day: u32) -> usize
    requires { day ≤ 3652424 }
    ensures { result ≡ date_of_day day }
{
    match dates::date_of_day(day) {
        Some(d) => d as usize,
        None => 0,
    }
}
