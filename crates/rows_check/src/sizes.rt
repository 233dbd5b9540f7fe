// How long a layout will be: 94. A size stops at 2^32.
ghost use Rattle.std.specs.Prelude.{◌≡◌, ◌+◌, ◌*◌, ◌≤◌, ◌<◌, length, leb};
ghost use Rattle.rows_check.specs.Tree.{after, next_section, skip, kinds, structs_from, labels_from};
ghost use Rattle.rows_check.specs.Check.{printed_section, fits_all, sections_fit, size};
ghost use Rattle.rows_check.specs.Sections.{many, printed_name, printed_body, Spans, SectionRows, Sections};
ghost use Rattle.rows_check.specs.Answers.{nameless_size, clip, size_of, Counted};

use super::order::Groups;
use super::{cells, kinds};

// The size at which counting stops.
pub(crate) const CAP: usize = 4294967296;

// A size, and the row after what was summed.
#[derive(Clone, Copy)]
pub(crate) struct Summed {
    pub size: usize,
    pub row: usize,
}

// The length of the layout, or 2^32 where it or a section is too long; and the row of the first label def.
pub(crate) fn total_size(rows: &[u32], text: &[u8], groups: Groups) -> Summed
    requires counts { Counted rows.now groups }
    requires sections { Sections 10 rows.now text.now 0 (kinds rows.now 10) }
    requires struct_sections { Sections 13 rows.now text.now (structs_from rows.now) (kinds rows.now 13) }
    requires label_sections { Sections 14 rows.now text.now (labels_from rows.now) (kinds rows.now 14) }
    ensures { (result.size ≡ size_of (sections_fit rows.now text.now) (size rows.now text.now)) × (result.row ≡ labels_from rows.now) }
{
    let a = sections_size(kinds::RECORD, rows, text, 0, groups.records, 8);
    let b = sections_size(kinds::STRUCT, rows, text, a.row, groups.structs, a.size);
    let d = sections_size(kinds::LABEL_DEF, rows, text, b.row, groups.labels, b.size);
    Summed {
        size: d.size,
        row: b.row,
    }
}

// The sum with k sections from row q on.
fn sections_size(kind: usize, rows: &[u32], text: &[u8], q: usize, k: usize, sum: usize) -> Summed
    requires sum_bound { sum ≤ 4294967296 }
    requires sections { Sections kind rows.now text.now q k }
    ensures { (result.size ≡ size_of (fits_all kind rows.now text.now q k) (sum + length (many (next_section kind rows.now) (printed_section kind rows.now text.now) q k))) × (result.row ≡ skip kind rows.now q k) }
{
    let mut s = sum;
    let mut p = q;
    for _ in 0..k {
        s = add_section(s, body_size(kind, rows, text, p));
        p = cells::next_section(kind, rows, p);
    }
    Summed { size: s, row: p }
}

// The sum with a section of that body, or the largest where the section is too long.
fn add_section(sum: usize, body: usize) -> usize
    requires { (sum ≤ 4294967296) × (body ≤ 4294967296) }
    ensures { result ≡ size_of (leb (body + 2) 65535) (sum + (body + 2)) }
{
    let x = body + 2;
    if x <= 65535 {
        return add_to(sum, x);
    }
    CAP
}

fn add_to(sum: usize, x: usize) -> usize
    requires { (sum ≤ 4294967296) × (x ≤ 1099511627776) }
    ensures { result ≡ clip (sum + x) }
{
    CAP.min(sum + x)
}

// The length of a section's body.
fn body_size(kind: usize, rows: &[u32], text: &[u8], q: usize) -> usize
    requires q_in_bounds { 9 * (q + 1) ≤ length rows.now }
    requires section_rows { SectionRows kind rows.now text.now q }
    ensures { result ≡ clip (length (printed_body kind rows.now text.now q)) }
{
    let from = cells::names_from(kind, rows, q);
    let n = cells::count_of(kind, rows, q);
    let head = add_to(0, nameless_size(kind, n) + cells::cell_of(rows, q, 2));
    names_size(rows, text, from, n, head)
}

// The length of a body with n fields or labels, names apart.
fn nameless_size(kind: usize, n: usize) -> usize
    requires { n < 4294967296 }
    ensures { (result ≡ nameless_size kind n) × (result ≤ 549755813888) }
{
    if kind == kinds::RECORD {
        return 18 + layout::D * n;
    }
    if kind == kinds::STRUCT {
        return 6 + layout::D * n;
    }
    4 + 2 * n
}

// The sum with the names of n rows from q on.
fn names_size(rows: &[u32], text: &[u8], q: usize, n: usize, sum: usize) -> usize
    requires sum_bound { sum ≤ 4294967296 }
    requires n_in_bounds { 9 * (q + n) ≤ length rows.now }
    requires spans { Spans rows.now text.now q n }
    ensures { result ≡ clip (sum + length (many after (printed_name rows.now text.now) q n)) }
{
    let mut s = sum;
    for p in q..q + n {
        s = add_to(s, cells::cell_of(rows, p, 2) + 2);
    }
    s
}
