// Rows of nine numbers, and the rows of a section.
ghost use Rattle.std.specs.Prelude.{◌≡◌, ◌+◌, ◌*◌, ◌≤◌, ◌<◌, length};
ghost use Rattle.rows_check.specs.Tree.{cell, count_of, names_from, next_section};
ghost use Rattle.rows_check.specs.Check.{name_kind};

use super::kinds;

pub(crate) fn wide(x: u32) -> usize
    ensures { (result ≡ x) × (result < 4294967296) }
{
    x as usize
}

// Number j of row q.
pub(crate) fn cell_of(rows: &[u32], q: usize, j: usize) -> usize
    requires { 9 * q + j < length rows.now }
    ensures { (result ≡ cell rows.now q j) × (result < 4294967296) }
{
    wide(rows[9 * q + j])
}

// How many fields or labels the section at row q has.
pub(crate) fn count_of(kind: usize, rows: &[u32], q: usize) -> usize
    requires { 9 * (q + 1) ≤ length rows.now }
    ensures { (result ≡ count_of kind rows.now q) × (result < 4294967296) }
{
    if kind == kinds::RECORD {
        return cell_of(rows, q, 6);
    }
    if kind == kinds::STRUCT {
        return cell_of(rows, q, 4);
    }
    cell_of(rows, q, 3)
}

// The row of the first name in the section at row q.
pub(crate) fn names_from(kind: usize, rows: &[u32], q: usize) -> usize
    requires { 9 * (q + 1) ≤ length rows.now }
    ensures { (result ≡ names_from kind rows.now q) × ((q + 1 ≤ result) × (result < q + 4294967297)) }
{
    if kind == kinds::RECORD {
        return q + 1 + cell_of(rows, q, 6);
    }
    if kind == kinds::STRUCT {
        return q + 1 + cell_of(rows, q, 4);
    }
    q + 1
}

// The row after the section at row q.
pub(crate) fn next_section(kind: usize, rows: &[u32], q: usize) -> usize
    requires { 9 * (q + 1) ≤ length rows.now }
    ensures { result ≡ next_section kind rows.now q }
{
    names_from(kind, rows, q) + count_of(kind, rows, q)
}

// The kind of the rows with a section's names.
pub(crate) fn name_kind(kind: usize) -> usize
    ensures { result ≡ name_kind kind }
{
    if kind == kinds::RECORD {
        return kinds::FIELD_NAME;
    }
    if kind == kinds::STRUCT {
        return kinds::FIELD_NAME;
    }
    kinds::LABEL
}
