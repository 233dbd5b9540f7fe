// Sections: the output after the two length bytes is lent to what fills the body.
ghost use Rattle.std.specs.Prelude.{◌≡◌, ◌+◌, ◌*◌, ◌≤◌, length};
ghost use Rattle.rows_check.specs.Tree.{next_section, kinds, structs_from, labels_from};
ghost use Rattle.rows_check.specs.Check.{printed_section, printed};
ghost use Rattle.rows_check.specs.Sections.{many, printed_head, printed_numbers, printed_contents, printed_body, printed_group, SectionRows, Sections};
ghost use Rattle.put.specs.Output.{RoomFor, Wrote, Filled};
ghost use Rattle.writer.specs.Write.{WroteSections};

use super::{cells, parts};
use rows_check::{Size, kinds};

// The place after what was written, and the row after what was read.
#[derive(Clone, Copy)]
struct Placed {
    at: usize,
    row: usize,
}

// The whole layout at the front of the output, with the counts of its records, structs and label defs given.
pub(crate) fn put_layout(
    out: &mut [u8],
    version: usize,
    rows: &[u32],
    text: &[u8],
    size: Size,
) -> usize
    requires counts { (size.records ≡ kinds rows.now 10) × ((size.structs ≡ kinds rows.now 13) × (size.labels ≡ kinds rows.now 14)) }
    requires sections { Sections 10 rows.now text.now 0 (kinds rows.now 10) }
    requires struct_sections { Sections 13 rows.now text.now (structs_from rows.now) (kinds rows.now 13) }
    requires label_sections { Sections 14 rows.now text.now (labels_from rows.now) (kinds rows.now 14) }
    requires text_in_bounds { length (printed version rows.now text.now) ≤ length out.old }
    ensures { Filled (printed version rows.now text.now) out.old out.new result }
{
    let a = put::put_little(out, 0, version, 2);
    let g = put_group(kinds::RECORD, out, a, rows, text, 0, size.records);
    let h = put_group(kinds::STRUCT, out, g.at, rows, text, g.row, size.structs);
    let i = put_group(kinds::LABEL_DEF, out, h.at, rows, text, h.row, size.labels);
    i.at
}

// A count and that many sections.
fn put_group(
    kind: usize,
    out: &mut [u8],
    at: usize,
    rows: &[u32],
    text: &[u8],
    q: usize,
    k: usize,
) -> Placed
    requires sections { Sections kind rows.now text.now q k }
    requires room_for { RoomFor at (printed_group kind rows.now text.now q k) out.old }
    ensures { WroteSections kind rows.now at (printed_group kind rows.now text.now q k) out.old out.new q k result.at result.row }
{
    let a = put::put_little(out, at, k, 2);
    put_sections(kind, out, a, rows, text, q, k)
}

fn put_sections(
    kind: usize,
    out: &mut [u8],
    at: usize,
    rows: &[u32],
    text: &[u8],
    q: usize,
    k: usize,
) -> Placed
    requires sections { Sections kind rows.now text.now q k }
    requires room_for { RoomFor at (many (next_section kind rows.now) (printed_section kind rows.now text.now) q k) out.old }
    ensures { WroteSections kind rows.now at (many (next_section kind rows.now) (printed_section kind rows.now text.now) q k) out.old out.new q k result.at result.row }
{
    let mut a = at;
    let mut p = q;
    for _ in 0..k {
        a = put_section(kind, out, a, rows, text, p);
        p = cells::next_row(kind, rows, p);
    }
    Placed { at: a, row: p }
}

// The section at row q: its body first, then the length before it.
fn put_section(kind: usize, out: &mut [u8], at: usize, rows: &[u32], text: &[u8], q: usize) -> usize
    requires q_in_bounds { 9 * (q + 1) ≤ length rows.now }
    requires section_rows { SectionRows kind rows.now text.now q }
    requires room_for { RoomFor at (printed_section kind rows.now text.now q) out.old }
    ensures { Wrote at (printed_section kind rows.now text.now q) out.old out.new result }
{
    let b = at + 2;
    let n = put_body(kind, &mut out[b..], rows, text, q);
    put::put_little(out, at, 2 + n, 2);
    b + n
}

// The body of the section at row q, at the front of what is lent: numbers, the name, and fields or labels.
fn put_body(kind: usize, out: &mut [u8], rows: &[u32], text: &[u8], q: usize) -> usize
    requires q_in_bounds { 9 * (q + 1) ≤ length rows.now }
    requires section_rows { SectionRows kind rows.now text.now q }
    requires room { length (printed_body kind rows.now text.now q) ≤ length out.old }
    ensures { Filled (printed_body kind rows.now text.now q) out.old out.new result }
{
    let a = put_numbers(kind, out, rows, q);
    let b = parts::put_name(out, a, rows, text, q);
    put_contents(kind, out, b, rows, text, q)
}

// What stands before the name: a record's numbers, a struct's size.
fn put_numbers(kind: usize, out: &mut [u8], rows: &[u32], q: usize) -> usize
    requires q_in_bounds { 9 * (q + 1) ≤ length rows.now }
    requires room_for { RoomFor 0 (printed_numbers kind rows.now q) out.old }
    ensures { Wrote 0 (printed_numbers kind rows.now q) out.old out.new result }
{
    if kind == kinds::RECORD {
        return put_head(out, 0, rows, q);
    }
    if kind == kinds::STRUCT {
        return put::put_little(out, 0, cells::cell_of(rows, q, 3), 2);
    }
    0
}

// What stands after the name: fields, or labels.
fn put_contents(
    kind: usize,
    out: &mut [u8],
    at: usize,
    rows: &[u32],
    text: &[u8],
    q: usize,
) -> usize
    requires q_in_bounds { 9 * (q + 1) ≤ length rows.now }
    requires section_rows { SectionRows kind rows.now text.now q }
    requires room_for { RoomFor at (printed_contents kind rows.now text.now q) out.old }
    ensures { Wrote at (printed_contents kind rows.now text.now q) out.old out.new result }
{
    let n = cells::count_of(kind, rows, q);
    if cells::has_fields(kind) {
        return parts::put_fields(out, at, rows, text, q + 1, n);
    }
    parts::put_labels(out, at, rows, text, q + 1, n)
}

// rtype, schema, base size, hash.
fn put_head(out: &mut [u8], at: usize, rows: &[u32], q: usize) -> usize
    requires q_in_bounds { 9 * (q + 1) ≤ length rows.now }
    requires room_for { RoomFor at (printed_head rows.now q) out.old }
    ensures { Wrote at (printed_head rows.now q) out.old out.new result }
{
    let a = put::put_little(out, at, cells::cell_of(rows, q, 3), 2);
    let b = put::put_little(out, a, cells::cell_of(rows, q, 4), 2);
    let d = put::put_little(out, b, cells::cell_of(rows, q, 5), 2);
    let hash = cells::cell_of(rows, q, 7) + 4294967296 * cells::cell_of(rows, q, 8);
    put::put_little(out, d, hash, 8)
}
