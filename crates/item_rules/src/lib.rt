// The rules of records and structs, numbers 60 to 83, where they stand: in a layout's bytes or in rows.
#![tactic(auto)]

ghost use Rattle.std.specs.Prelude.{◌≡◌, true, ◌<◌};
ghost use Rattle.codec.specs.Telling.{passed};
ghost use Rattle.item_rules.specs.Standing.{stands, table_fault, counted_fault, sections_fault, items_fault};

mod by_marks;
mod by_search;
mod entries;
mod items;
mod sequence;
mod walk;

use refusal::Refusal;

// The entries of one record or struct: whether they lie in the rows or in the layout's bytes, how far apart, where the
// first is and how many there are.
#[derive(Clone, Copy)]
pub struct Source {
    pub rows: bool,
    pub step: usize,
    pub at: usize,
    pub count: usize,
}

// How far a walk over the entries has come: whether each of either side began where the one before it on that side ends; and where the
// next of the base and the next past the base are to begin.
#[derive(Clone, Copy)]
pub struct Course {
    pub in_order: bool,
    pub cursor: usize,
    pub beyond: usize,
}

// What a search finds: the end of an entry, and the entries after it.
#[derive(Clone, Copy)]
pub struct Hit {
    pub end: usize,
    pub rest: Source,
}

// A search that may go back to the front: what it found, and how many looks it left over.
#[derive(Clone, Copy)]
pub struct Turn {
    pub hit: Option<Hit>,
    pub spare: usize,
}

// How far a chase went: the entries used, and where the last ends.
#[derive(Clone, Copy)]
pub struct Chased {
    pub used: usize,
    pub cursor: usize,
}

// What marking entries came to: whether two of them overlap, and where the furthest of those marked ends. The marks are taken back as far
// as that either way, so both are told together.
#[derive(Clone, Copy)]
pub struct Painted {
    pub clash: bool,
    pub top: usize,
}

// Records or structs yet to come, as many as are left: in the rows, from row `at` on, or in the layout's bytes, from place `at` on.
#[derive(Clone, Copy)]
pub struct Place {
    pub rows: bool,
    pub at: usize,
    pub left: usize,
}

// A record, or a struct of rtype 0: its base size or its size, and its entries.
#[derive(Clone, Copy)]
pub struct Item {
    pub rtype: u16,
    pub base: usize,
    pub entries: Source,
}

// How records and structs are ruled on, the same for all: the symbol width, how many label defs there are, and whether all of 81 to 83
// are found by marks.
#[derive(Clone, Copy)]
pub struct How {
    pub width: usize,
    pub labels: usize,
    pub by_marks: bool,
}

// What is ruled on: the structs, the records, and how.
#[derive(Clone, Copy)]
pub struct Task {
    pub structs: Place,
    pub records: Place,
    pub how: How,
}

// The answer where a search has looked too often, or a record or a struct reaches past the owners lent: no number of document 01.
pub(crate) const GAVE_UP: u32 = 65536;

// The first refusal that the rules give, structs first, which is about no byte. Where `in_rows` holds the records and structs are so many, in
// the rows, from the first row on; else the layout's bytes tell how many there are, and how many label defs. Where one does not lie in its
// slice nothing is refused.
pub fn check_items(
    sheet: &[u16; 520],
    layout: &[u8],
    rows: &[u32],
    in_rows: bool,
    records: usize,
    structs: usize,
    how: How,
) -> Result<(), Refusal>
    ensures { result ≡ passed (items_fault sheet.now how.width how.labels layout.now rows.now in_rows records structs) }
{
    if in_rows {
        return table_rules(sheet, layout, rows, records, structs, how);
    }
    section_rules(sheet, layout, rows, how)
}

// The rules of so many records and structs of rows.
fn table_rules(
    sheet: &[u16; 520],
    layout: &[u8],
    rows: &[u32],
    n: usize,
    k: usize,
    how: How,
) -> Result<(), Refusal>
    ensures { result ≡ passed (table_fault sheet.now how.width how.labels layout.now rows.now n k) }
{
    let records = Place {
        rows: true,
        at: 0,
        left: n,
    };
    let Some(at) = walk::reach(layout, rows, true, records) else {
        return Ok(());
    };
    let structs = Place {
        rows: true,
        at,
        left: k,
    };
    let Some(_) = walk::reach(layout, rows, false, structs) else {
        return Ok(());
    };
    let task = Task {
        structs,
        records,
        how,
    };
    items::rules(sheet, layout, rows, task)
}

// The rules of a layout's sections, whose counts stand before the records, before the structs and before the label defs.
fn section_rules(sheet: &[u16; 520], layout: &[u8], rows: &[u32], how: How) -> Result<(), Refusal>
    ensures { result ≡ passed (sections_fault sheet.now how.width layout.now rows.now) }
{
    let records = Place {
        rows: false,
        at: 4,
        left: filled_numbers::u16_of(layout, 2),
    };
    let Some(end) = walk::reach(layout, rows, true, records) else {
        return Ok(());
    };
    if numbers::left(layout, end) < 2 {
        return Ok(());
    }
    let structs = Place {
        rows: false,
        at: end + 2,
        left: filled_numbers::u16_of(layout, end),
    };
    counted_rules(sheet, layout, rows, structs, records, how)
}

// The rules of records that lie in the layout's bytes, and of structs with the count of label defs after them.
fn counted_rules(
    sheet: &[u16; 520],
    layout: &[u8],
    rows: &[u32],
    structs: Place,
    records: Place,
    how: How,
) -> Result<(), Refusal>
    requires records_stand { stands layout.now rows.now true records ≡ true }
    requires left_bound { structs.left < 65536 }
    ensures { result ≡ passed (counted_fault sheet.now how.width layout.now rows.now structs records) }
{
    let Some(end) = walk::reach(layout, rows, false, structs) else {
        return Ok(());
    };
    let so = How {
        width: how.width,
        labels: filled_numbers::u16_of(layout, end),
        by_marks: how.by_marks,
    };
    let task = Task {
        structs,
        records,
        how: so,
    };
    items::rules(sheet, layout, rows, task)
}
