// Whether the kinds of rows stand in their places, and whether label codes rise.
ghost use Rattle.std.specs.Prelude.{◌≡◌, ◌+◌, ◌-◌, ◌*◌, ◌/◌, ◌≤◌, ◌<◌, length, true, false};
ghost use Rattle.rows_check.specs.Tree.{row_count};
ghost use Rattle.rows_check.specs.Answers.{AllGood, Counted, Counts, Walked};
ghost use Rattle.rows_check.specs.Check.{every, section_in_place, in_order, well_formed, groups_fit, counts_fit, rises_at};

use super::{cells, fits, kinds};

// How many rows begin a record, a struct and a label def.
#[derive(Clone, Copy)]
pub(crate) struct Groups {
    pub records: usize,
    pub structs: usize,
    pub labels: usize,
}

// The row after some sections, and how many they are.
#[derive(Clone, Copy)]
struct Reached {
    row: usize,
    count: usize,
}

// 90: rows of nine whose numbers fit, each kind in its place; and then how many begin a section.
pub(crate) fn well_formed(good: bool, rows: &[u32], text: &[u8]) -> Option<Groups>
    requires { AllGood good 90 rows.now text.now }
    ensures { Counts (well_formed rows.now text.now) rows.now result }
{
    if rows.len() % 9 != 0 {
        return None;
    }
    if !fits::all_pass(good, 90, rows, text) {
        return None;
    }
    in_order(rows, text)
}

// Record sections, then struct sections, then label defs, and no row besides.
fn in_order(rows: &[u32], text: &[u8]) -> Option<Groups>
    ensures { Counts (in_order rows.now text.now) rows.now result }
{
    let a = walk_sections(kinds::RECORD, rows, text, 0)?;
    let b = walk_sections(kinds::STRUCT, rows, text, a.row)?;
    let d = walk_sections(kinds::LABEL_DEF, rows, text, b.row)?;
    if d.row != rows.len() / 9 {
        return None;
    }
    Some(Groups {
        records: a.count,
        structs: b.count,
        labels: d.count,
    })
}

// The row after all sections of a kind from row q on, and how many they are; nothing where one is not in place.
// No `for`: where the next section begins is known only from this one's counts.
fn walk_sections(kind: usize, rows: &[u32], text: &[u8], q: usize) -> Option<Reached>
    ensures { Walked kind rows.now text.now q result }
{
    let nr = rows.len() / 9;
    let mut p = q;
    let mut n: usize = 0;
    while p < nr {
        if cells::cell_of(rows, p, 0) != kind {
            return Some(Reached { row: p, count: n });
        }
        if !section_in_place(kind, rows, text, p) {
            return None;
        }
        p = cells::next_section(kind, rows, p);
        n += 1;
    }
    Some(Reached { row: p, count: n })
}

// A section of that kind stands at row q.
fn section_in_place(kind: usize, rows: &[u32], text: &[u8], q: usize) -> bool
    ensures { result ≡ section_in_place kind rows.now text.now q }
{
    let nr = rows.len() / 9;
    if nr <= q {
        return false;
    }
    let here = cells::cell_of(rows, q, 0);
    if here != kind {
        return false;
    }
    let from = cells::names_from(kind, rows, q);
    let n = cells::count_of(kind, rows, q);
    let end = from + n;
    if nr < end {
        return false;
    }
    if !fits::rows_pass(kinds::FIELD, rows, text, q + 1, from - (q + 1)) {
        return false;
    }
    fits::rows_pass(cells::name_kind(kind), rows, text, from, n)
}

// 91: the counts of fields and labels, and those of records, structs and label defs, which are given.
pub(crate) fn counts_fit(good: bool, rows: &[u32], text: &[u8], groups: Groups) -> bool
    requires counts { Counted rows.now groups }
    requires all_good { AllGood good 91 rows.now text.now }
    ensures { result ≡ counts_fit rows.now text.now }
{
    if !fits::all_pass(good, 91, rows, text) {
        return false;
    }
    groups_fit(groups)
}

fn groups_fit(groups: Groups) -> bool
    ensures { result ≡ groups_fit groups.records groups.structs groups.labels }
{
    groups.records <= 65535 && groups.structs <= 65535 && groups.labels <= 65535
}

// 95: of two labels one after the other the second has the larger code. Before row `from` this is known.
pub(crate) fn labels_rise(rows: &[u32], from: usize) -> bool
    requires from_bound { from ≤ row_count rows.now }
    requires risen { every (rises_at rows.now) 0 from ≡ true }
    ensures { result ≡ every (rises_at rows.now) 0 (row_count rows.now - 1) }
{
    for p in from..(rows.len() / 9).saturating_sub(1) {
        if !rises_at(rows, p) {
            return false;
        }
    }
    true
}

fn rises_at(rows: &[u32], q: usize) -> bool
    requires { 9 * (q + 2) ≤ length rows.now }
    ensures { result ≡ rises_at rows.now q }
{
    let a = cells::cell_of(rows, q, 0);
    if a != kinds::LABEL {
        return true;
    }
    let b = cells::cell_of(rows, q + 1, 0);
    if b != kinds::LABEL {
        return true;
    }
    cells::cell_of(rows, q, 3) < cells::cell_of(rows, q + 1, 3)
}
