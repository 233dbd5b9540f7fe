// Records or structs one by one, from a layout's sections or from rows that are in their places.
ghost use Rattle.std.specs.Prelude.{◌≡◌, cond, ◌+◌, ◌*◌, ◌<◌, ◌≤◌, min, length};
ghost use Rattle.numbers.specs.Numbers.{le16};
ghost use Rattle.rows_check.specs.Tree.{cell};
ghost use Rattle.item_rules.specs.Items.{column, section_item, SectionInside, fields_in, row_item, RowInside, item_at, next_at, InsideAt, Good, Stepped};
ghost use Rattle.item_rules.specs.Standing.{section_lies, row_lies, lies_at, Reached};

use crate::{Item, Place, Source};

// The u16 at `at`.
pub(crate) fn half(s: &[u8], at: usize) -> usize
    requires { at + 2 ≤ length s.now }
    ensures { (result ≡ le16 s.now at) × (result < 65536) }
{
    numbers::wide(s[at]) + 256 * numbers::wide(s[at + 1])
}

pub(crate) fn smaller(a: usize, b: usize) -> usize
    ensures { result ≡ min a b }
{
    if a < b { a } else { b }
}

// What a record has in one column, and a struct in another.
fn column(is_record: bool, r: usize, s: usize) -> usize
    ensures { result ≡ column is_record r s }
{
    if is_record { r } else { s }
}

// ---- sections

// The rtype at `at` of a record; a struct has 0.
fn rtype_at(layout: &[u8], is_record: bool, at: usize) -> u16
    requires { at + 2 ≤ length layout.now }
    ensures { result ≡ cond is_record (le16 layout.now at) 0 }
{
    if is_record {
        return half(layout, at) as u16;
    }
    0
}

// The record or struct of the section at `at`.
fn section_item(layout: &[u8], is_record: bool, at: usize) -> Item
    requires { SectionInside is_record layout.now at }
    ensures { (result ≡ section_item is_record layout.now at) × (result.base < 65536) }
{
    let rtype = rtype_at(layout, is_record, at + 2);
    let base = half(layout, at + column(is_record, 6, 2));
    let name = at + column(is_record, 16, 4);
    let p = name + numbers::wide(layout[name]) + 2;
    let count = half(layout, p);
    Item {
        rtype,
        base,
        entries: Source {
            rows: false,
            step: layout::D,
            at: p + 2,
            count,
        },
    }
}

// ---- rows

fn wide(x: u32) -> usize
    ensures { (result ≡ x) × (result < 4294967296) }
{
    x as usize
}

// Number j of row q.
fn cell(rows: &[u32], q: usize, j: usize) -> usize
    requires { 9 * q + j < length rows.now }
    ensures { (result ≡ cell rows.now q j) × (result < 4294967296) }
{
    wide(rows[9 * q + j])
}

// The rtype of the record of row q; a struct has 0.
fn rtype_in(rows: &[u32], is_record: bool, q: usize) -> u16
    requires { RowInside is_record rows.now q }
    ensures { result ≡ cond is_record (cell rows.now q 3) 0 }
{
    if is_record {
        return cell(rows, q, 3) as u16;
    }
    0
}

// How many fields the record or struct of row q has.
fn fields_in(rows: &[u32], is_record: bool, q: usize) -> usize
    requires { RowInside is_record rows.now q }
    ensures { (result ≡ fields_in is_record rows.now q) × (result < 4294967296) }
{
    cell(rows, q, column(is_record, 6, 4))
}

// The record or struct of row q.
fn row_item(rows: &[u32], is_record: bool, q: usize) -> Item
    requires { RowInside is_record rows.now q }
    ensures { (result ≡ row_item is_record rows.now q) × (result.base < 65536) }
{
    let rtype = rtype_in(rows, is_record, q);
    let base = cell(rows, q, column(is_record, 5, 3));
    let count = fields_in(rows, is_record, q);
    Item {
        rtype,
        base,
        entries: Source {
            rows: true,
            step: 9,
            at: 9 * q + 9,
            count,
        },
    }
}

// ---- both

// The record or struct at a place of the rows, or of the layout's bytes.
fn item_at(layout: &[u8], rows: &[u32], is_record: bool, in_rows: bool, at: usize) -> Item
    requires { InsideAt is_record layout.now rows.now in_rows at }
    ensures { (result ≡ item_at is_record layout.now rows.now in_rows at) × (result.base < 65536) }
{
    if in_rows {
        return row_item(rows, is_record, at);
    }
    section_item(layout, is_record, at)
}

// The place after it.
fn next_at(layout: &[u8], rows: &[u32], is_record: bool, in_rows: bool, at: usize) -> usize
    requires { InsideAt is_record layout.now rows.now in_rows at }
    ensures { result ≡ next_at is_record layout.now rows.now in_rows at }
{
    if in_rows {
        let n = fields_in(rows, is_record, at);
        return at + 1 + n + n;
    }
    at + half(layout, at)
}

// The next record, where `is_record` holds, or the next struct; and what comes after it.
pub(crate) fn next_item(
    layout: &[u8],
    rows: &[u32],
    is_record: bool,
    place: Place,
) -> Option<(Item, Place)>
    requires { Good layout.now rows.now is_record place }
    ensures { Stepped layout.now rows.now is_record place result }
{
    if place.left == 0 {
        return None;
    }
    let in_rows = place.rows;
    let at = place.at;
    let item = item_at(layout, rows, is_record, in_rows, at);
    let after = Place {
        rows: in_rows,
        at: next_at(layout, rows, is_record, in_rows, at),
        left: place.left - 1,
    };
    Some((item, after))
}

// Whether the section at `at` and its fields lie in the layout's bytes.
fn section_lies(layout: &[u8], is_record: bool, at: usize) -> bool
    ensures { result ≡ section_lies is_record layout.now at }
{
    let size = filled_numbers::u16_of(layout, at);
    if numbers::left(layout, at) < size {
        return false;
    }
    if size < column(is_record, 20, 8) {
        return false;
    }
    let name = column(is_record, 16, 4);
    let end = name + numbers::wide(layout[at + name]) + 4;
    if size < end {
        return false;
    }
    end + layout::D * half(layout, at + end - 2) <= size
}

// Whether the rows of the record or struct of row q lie in the table, and its numbers fit.
fn row_lies(rows: &[u32], is_record: bool, q: usize) -> bool
    ensures { result ≡ row_lies is_record rows.now q }
{
    let n = rows.len() / 9;
    if n <= q {
        return false;
    }
    if 65535 < column(is_record, cell(rows, q, 3), 0) {
        return false;
    }
    if 65535 < cell(rows, q, column(is_record, 5, 3)) {
        return false;
    }
    let k = cell(rows, q, column(is_record, 6, 4));
    q + 1 + k + k <= n
}

fn lies(layout: &[u8], rows: &[u32], is_record: bool, in_rows: bool, at: usize) -> bool
    ensures { result ≡ lies_at is_record layout.now rows.now in_rows at }
{
    if in_rows {
        return row_lies(rows, is_record, at);
    }
    section_lies(layout, is_record, at)
}

// The place after the last of them, where all of them lie in their slice.
pub(crate) fn reach(layout: &[u8], rows: &[u32], is_record: bool, place: Place) -> Option<usize>
    ensures { Reached layout.now rows.now is_record place result }
{
    let in_rows = place.rows;
    let mut at = place.at;
    for _ in 0..place.left {
        if !lies(layout, rows, is_record, in_rows, at) {
            return None;
        }
        at = next_at(layout, rows, is_record, in_rows, at);
    }
    Some(at)
}
