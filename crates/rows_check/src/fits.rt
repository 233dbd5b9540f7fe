// The tests of single rows: 90 to 93, and the kind of a row.
ghost use Rattle.std.specs.Prelude.{◌≡◌, ◌+◌, ◌*◌, ◌≤◌, ◌<◌, length};
ghost use Rattle.rows_check.specs.Check.{every, limits, limit_of, number_fits, span_fits, row_fits, count_fits, name_short, clean, name_clean, row_test, passes};
ghost use Rattle.rows_check.specs.Answers.{row_good, AllGood};
ghost use Rattle.rows_check.specs.Tree.{row_count};

use super::{cells, kinds};

// The largest that each of a row's nine numbers may be, for kinds 10 to 15.
const LIMITS: [u32; 54] = [
    10, 4294967295, 4294967295, 65535, 65535, 65535, 4294967295, 4294967295, 4294967295, //
    11, 65535, 65535, 65535, 255, 255, 65535, 255, 0, //
    12, 4294967295, 4294967295, 0, 0, 0, 0, 0, 0, //
    13, 4294967295, 4294967295, 65535, 4294967295, 0, 0, 0, 0, //
    14, 4294967295, 4294967295, 4294967295, 0, 0, 0, 0, 0, //
    15, 4294967295, 4294967295, 65535, 0, 0, 0, 0, 0,
];

// Whether the test `which` passes at all rows; `good` says that each row passes 90 to 93.
pub(crate) fn all_pass(good: bool, which: usize, rows: &[u32], text: &[u8]) -> bool
    requires { AllGood good which rows.now text.now }
    ensures { result ≡ passes which rows.now text.now 0 (row_count rows.now) }
{
    if good {
        return true;
    }
    rows_pass(which, rows, text, 0, rows.len() / 9)
}

// Whether each row passes 90 to 93, in one go.
pub(crate) fn all_good(rows: &[u32], text: &[u8]) -> bool
    ensures { result ≡ every (row_good rows.now text.now) 0 (row_count rows.now) }
{
    all_within(&LIMITS, rows, text)
}

// The same, with the table of limits, which is built once.
fn all_within(table: &[u32; 54], rows: &[u32], text: &[u8]) -> bool
    requires { table.now ≡ limits }
    ensures { result ≡ every (row_good rows.now text.now) 0 (row_count rows.now) }
{
    for p in 0..rows.len() / 9 {
        if !row_good(table, rows, text, p) {
            return false;
        }
    }
    true
}

// 90 to 93, of one row.
fn row_good(table: &[u32; 54], rows: &[u32], text: &[u8], q: usize) -> bool
    requires limits_of { table.now ≡ limits }
    requires q_in_bounds { 9 * (q + 1) ≤ length rows.now }
    ensures { result ≡ row_good rows.now text.now q }
{
    if !row_fits(table, rows, text, q) {
        return false;
    }
    if !count_fits(rows, q) {
        return false;
    }
    if !name_short(rows, q) {
        return false;
    }
    name_clean(rows, text, q)
}

// Whether the test `which` passes at n rows from q on.
pub(crate) fn rows_pass(which: usize, rows: &[u32], text: &[u8], q: usize, n: usize) -> bool
    requires { 9 * (q + n) ≤ length rows.now }
    ensures { result ≡ passes which rows.now text.now q n }
{
    for p in q..q + n {
        if !row_test(which, rows, text, p) {
            return false;
        }
    }
    true
}

// One row by the number of the test, or by the kind that it must have.
fn row_test(which: usize, rows: &[u32], text: &[u8], q: usize) -> bool
    requires { 9 * (q + 1) ≤ length rows.now }
    ensures { result ≡ row_test which rows.now text.now q }
{
    if which == 90 {
        return row_fits(&LIMITS, rows, text, q);
    }
    if which == 91 {
        return count_fits(rows, q);
    }
    if which == 92 {
        return name_short(rows, q);
    }
    if which == 93 {
        return name_clean(rows, text, q);
    }
    cells::cell_of(rows, q, 0) == which
}

// 90: the row is of a kind, its numbers fit, and its span lies in the text.
fn row_fits(table: &[u32; 54], rows: &[u32], text: &[u8], q: usize) -> bool
    requires limits_of { table.now ≡ limits }
    requires q_in_bounds { 9 * (q + 1) ≤ length rows.now }
    ensures { result ≡ row_fits rows.now text.now q }
{
    let kind = cells::cell_of(rows, q, 0);
    if kind < kinds::RECORD {
        return false;
    }
    if kinds::LABEL < kind {
        return false;
    }
    if !numbers_fit(table, rows, q, kind) {
        return false;
    }
    if kind == kinds::FIELD {
        return true;
    }
    span_fits(rows, text, q)
}

fn limit_of(table: &[u32; 54], kind: usize, j: usize) -> usize
    requires limits_of { table.now ≡ limits }
    requires le_kind { (10 ≤ kind) × ((kind ≤ 15) × (j < 9)) }
    ensures { result ≡ limit_of kind j }
{
    cells::wide(table[9 * (kind - 10) + j])
}

// Each of the row's numbers is within its limit: the eight are compared without a branch.
fn numbers_fit(table: &[u32; 54], rows: &[u32], q: usize, kind: usize) -> bool
    requires limits_of { table.now ≡ limits }
    requires le_kind { (10 ≤ kind) × (kind ≤ 15) }
    requires q_in_bounds { 9 * (q + 1) ≤ length rows.now }
    ensures { result ≡ every (number_fits rows.now q kind) 1 8 }
{
    let mut fit = true;
    for j in 1..9 {
        fit = fit & (cells::cell_of(rows, q, j) <= limit_of(table, kind, j));
    }
    fit
}

fn span_fits(rows: &[u32], text: &[u8], q: usize) -> bool
    requires { 9 * (q + 1) ≤ length rows.now }
    ensures { result ≡ span_fits rows.now text.now q }
{
    cells::cell_of(rows, q, 1) + cells::cell_of(rows, q, 2) <= text.len()
}

// 91, of one row.
fn count_fits(rows: &[u32], q: usize) -> bool
    requires { 9 * (q + 1) ≤ length rows.now }
    ensures { result ≡ count_fits rows.now q }
{
    let kind = cells::cell_of(rows, q, 0);
    if kind == kinds::RECORD {
        return cells::cell_of(rows, q, 6) <= 65535;
    }
    if kind == kinds::STRUCT {
        return cells::cell_of(rows, q, 4) <= 65535;
    }
    if kind == kinds::LABEL_DEF {
        return cells::cell_of(rows, q, 3) <= 65535;
    }
    true
}

// 92, of one row.
fn name_short(rows: &[u32], q: usize) -> bool
    requires { 9 * (q + 1) ≤ length rows.now }
    ensures { result ≡ name_short rows.now q }
{
    let kind = cells::cell_of(rows, q, 0);
    if kind == kinds::FIELD {
        return true;
    }
    cells::cell_of(rows, q, 2) <= 255
}

// 93, of one row.
fn name_clean(rows: &[u32], text: &[u8], q: usize) -> bool
    requires { 9 * (q + 1) ≤ length rows.now }
    ensures { result ≡ name_clean rows.now text.now q }
{
    let kind = cells::cell_of(rows, q, 0);
    if kind == kinds::FIELD {
        return true;
    }
    let s = cells::cell_of(rows, q, 1);
    let e = s + cells::cell_of(rows, q, 2);
    if e <= text.len() {
        is_clean(&text[s..e])
    } else {
        true
    }
}

// No NUL, and UTF-8.
fn is_clean(s: &[u8]) -> bool
    ensures { result ≡ clean s.now }
{
    if plain_text::is_plain(s) {
        return true;
    }
    if wire::has_nul(s) {
        return false;
    }
    text::is_utf8(s)
}
