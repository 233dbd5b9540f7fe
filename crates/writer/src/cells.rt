// Rows of nine numbers.
ghost use Rattle.std.specs.Prelude.{◌≡◌, ◌+◌, ◌*◌, ◌≤◌, ◌<◌, length};
ghost use Rattle.entry.specs.Entry.{row_bytes};
ghost use Rattle.rows_check.specs.Tree.{cell, has_fields, count_of, next_section};

use rows_check::kinds;

fn wide(x: u32) -> usize
    ensures { (result ≡ x) × (result < 4294967296) }
{
    x as usize
}

// Number j of row q.
pub(crate) fn cell_of(rows: &[u32], q: usize, j: usize) -> usize
    requires { 9 * q + j < length rows.now }
    ensures { (result ≡ cell rows.now q j) × (result < 4294967296) }
{
    wide(rows[9 * q + j])
}

// The field row q as the first eleven bytes of an entry.
pub(crate) fn entry_of(rows: &[u32], q: usize) -> [u8; 11]
    requires { 9 * (q + 1) ≤ length rows.now }
    ensures { result ≡ row_bytes rows.now (9 * q) }
{
    let a = 9 * q;
    let b = a + 9;
    entry::row_bytes(&rows[a..b], 0)
}

// Whether sections of that kind have fields.
pub(crate) fn has_fields(kind: usize) -> bool
    ensures { result ≡ has_fields kind }
{
    kind == kinds::RECORD || kind == kinds::STRUCT
}

// How many fields or labels the section at row q has.
pub(crate) fn count_of(kind: usize, rows: &[u32], q: usize) -> usize
    requires { 9 * (q + 1) ≤ length rows.now }
    ensures { (result ≡ count_of kind rows.now q) × (result < 4294967296) }
{
    if kind == kinds::RECORD {
        return cell_of(rows, q, 6);
    }
    if kind == kinds::STRUCT {
        return cell_of(rows, q, 4);
    }
    cell_of(rows, q, 3)
}

// The row after the section at row q.
pub(crate) fn next_row(kind: usize, rows: &[u32], q: usize) -> usize
    requires { 9 * (q + 1) ≤ length rows.now }
    ensures { result ≡ next_section kind rows.now q }
{
    let n = count_of(kind, rows, q);
    if has_fields(kind) {
        return q + 1 + n + n;
    }
    q + 1 + n
}
