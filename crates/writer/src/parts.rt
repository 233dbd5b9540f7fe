// Names, entries and labels.
ghost use Rattle.std.specs.Prelude.{◌+◌, ◌*◌, ◌≤◌, length};
ghost use Rattle.layout.specs.LayoutOf.{entry};
ghost use Rattle.rows_check.specs.Tree.{cell, after, entry_with_zeros};
ghost use Rattle.rows_check.specs.Sections.{many, printed_name, printed_label, printed_fields, printed_labels, Spans};
ghost use Rattle.writer.specs.Write.{TextsInside, printed_part};
ghost use Rattle.put.specs.Output.{RoomFor, Wrote};

use super::cells;
use rows_check::kinds;

// The name of row q: length byte, bytes, one NUL.
pub(crate) fn put_name(out: &mut [u8], at: usize, rows: &[u32], text: &[u8], q: usize) -> usize
    requires q_in_bounds { 9 * (q + 1) ≤ length rows.now }
    requires text_in_bounds { cell rows.now q 1 + cell rows.now q 2 ≤ length text.now }
    requires room_for { RoomFor at (printed_name rows.now text.now q) out.old }
    ensures { Wrote at (printed_name rows.now text.now q) out.old out.new result }
{
    let s = cells::cell_of(rows, q, 1);
    let l = cells::cell_of(rows, q, 2);
    let a = put::put_little(out, at, l, 1);
    let e = s + l;
    let b = put::put_bytes(out, a, &text[s..e]);
    put::put_zeros(out, b, 1)
}

// An entry: the eleven bytes, and zeros up to D.
fn put_entry(out: &mut [u8], at: usize, e: [u8; 11]) -> usize
    requires { RoomFor at (entry.print (entry_with_zeros e)) out.old }
    ensures { Wrote at (entry.print (entry_with_zeros e)) out.old out.new result }
{
    let a = put::put_bytes(out, at, &e);
    put::put_zeros(out, a, layout::D - 11)
}

// The part of a section that row q is: an entry, a name or a label.
fn put_part(kind: usize, out: &mut [u8], at: usize, rows: &[u32], text: &[u8], q: usize) -> usize
    requires q_in_bounds { 9 * (q + 1) ≤ length rows.now }
    requires texts_inside { TextsInside kind rows.now text.now q 1 }
    requires room_for { RoomFor at (printed_part kind rows.now text.now q) out.old }
    ensures { Wrote at (printed_part kind rows.now text.now q) out.old out.new result }
{
    if kind == kinds::FIELD {
        return put_entry(out, at, cells::entry_of(rows, q));
    }
    if kind == kinds::FIELD_NAME {
        return put_name(out, at, rows, text, q);
    }
    put_label(out, at, rows, text, q)
}

// The parts of n rows from q on.
fn put_parts(
    kind: usize,
    out: &mut [u8],
    at: usize,
    rows: &[u32],
    text: &[u8],
    q: usize,
    n: usize,
) -> usize
    requires n_in_bounds { 9 * (q + n) ≤ length rows.now }
    requires texts_inside { TextsInside kind rows.now text.now q n }
    requires room_for { RoomFor at (many after (printed_part kind rows.now text.now) q n) out.old }
    ensures { Wrote at (many after (printed_part kind rows.now text.now) q n) out.old out.new result }
{
    let mut a = at;
    for p in q..q + n {
        a = put_part(kind, out, a, rows, text, p);
    }
    a
}

// Count, entries, then one name each.
pub(crate) fn put_fields(
    out: &mut [u8],
    at: usize,
    rows: &[u32],
    text: &[u8],
    q: usize,
    n: usize,
) -> usize
    requires n_in_bounds { 9 * (q + n + n) ≤ length rows.now }
    requires spans { Spans rows.now text.now (q + n) n }
    requires room_for { RoomFor at (printed_fields rows.now text.now q n) out.old }
    ensures { Wrote at (printed_fields rows.now text.now q n) out.old out.new result }
{
    let a = put::put_little(out, at, n, 2);
    let b = put_parts(kinds::FIELD, out, a, rows, text, q, n);
    put_parts(kinds::FIELD_NAME, out, b, rows, text, q + n, n)
}

// Count and labels.
pub(crate) fn put_labels(
    out: &mut [u8],
    at: usize,
    rows: &[u32],
    text: &[u8],
    q: usize,
    n: usize,
) -> usize
    requires n_in_bounds { 9 * (q + n) ≤ length rows.now }
    requires spans { Spans rows.now text.now q n }
    requires room_for { RoomFor at (printed_labels rows.now text.now q n) out.old }
    ensures { Wrote at (printed_labels rows.now text.now q n) out.old out.new result }
{
    let a = put::put_little(out, at, n, 2);
    put_parts(kinds::LABEL, out, a, rows, text, q, n)
}

// Code and name.
fn put_label(out: &mut [u8], at: usize, rows: &[u32], text: &[u8], q: usize) -> usize
    requires q_in_bounds { 9 * (q + 1) ≤ length rows.now }
    requires text_in_bounds { cell rows.now q 1 + cell rows.now q 2 ≤ length text.now }
    requires room_for { RoomFor at (printed_label rows.now text.now q) out.old }
    ensures { Wrote at (printed_label rows.now text.now q) out.old out.new result }
{
    let a = put::put_little(out, at, cells::cell_of(rows, q, 3), 2);
    put_name(out, a, rows, text, q)
}
