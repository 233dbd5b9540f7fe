// One record or struct: its alignment, and numbers 71 to 83.
ghost use Rattle.std.specs.Prelude.{◌≡◌, ◌≢◌, true, false, cond, [], ◌<◌, ◌≤◌, max, eqb, OnOk, IfOk, IfErr, IfSome};
ghost use Rattle.marks.specs.Marks.{Marks, Only};
ghost use Rattle.item_rules.specs.Rules.{struct_align, fields_fault, tiling_fault, seq_fault, judged};
ghost use Rattle.item_rules.specs.Engines.{Passed};
ghost use Rattle.plain_tiling.specs.Places.{Unowned};
ghost use Rattle.item_rules.specs.Tried.{Tried};
ghost use Rattle.item_rules.specs.Entries.{entries_of, InSlice};
ghost use Rattle.item_rules.specs.InOrder.{InTurn, Onward};
ghost use Rattle.item_rules.specs.Ids.{ids_of, noted_marks, Clean};

use crate::{Course, GAVE_UP, How, Item, Source, by_marks, by_search, entries, walk};
use fields::Frame;

fn larger(a: u16, b: u16) -> u16
    ensures { result ≡ max a b }
{
    if a < b { b } else { a }
}

// The largest alignment in a struct, at least 1.
pub(crate) fn struct_align(sheet: &[u16; 520], layout: &[u8], rows: &[u32], src: Source) -> u16
    requires { InSlice layout.now rows.now src }
    ensures { (result ≡ struct_align sheet.now (entries_of layout.now rows.now src)) × (1 ≤ result) }
{
    let mut left = src;
    let mut a: u16 = 1;
    for _ in 0..src.count {
        let e = entries::entry_at(layout, rows, left);
        let c = fields::class_of(sheet, e);
        a = larger(a, c.align);
        left = entries::rest(left);
    }
    a
}

// Marks the entry's id, unless it is padding.
fn note(sheet: &[u16; 520], marks: &mut [u64; 1024], e: [u8; 11])
    ensures { marks.new ≡ noted_marks sheet.now marks.old e }
{
    let c = fields::class_of(sheet, e);
    if c.padding {
        return;
    }
    marks::mark(marks, c.id);
}

// The course after one more entry: in order where it was and the entry begins where it is to begin.
fn onward(frame: Frame, so: Course, e: [u8; 11]) -> Course
    ensures { Onward frame.is_record frame.base e so result }
{
    let x = fields::extent_of(frame, false, e);
    if x.other {
        return Course {
            in_order: so.in_order & (x.off == so.beyond),
            cursor: so.cursor,
            beyond: x.end,
        };
    }
    Course {
        in_order: so.in_order & (x.off == so.cursor),
        cursor: x.end,
        beyond: so.beyond,
    }
}

// The first of rules 71 to 80 that an entry breaks, in order; or where the last of the base ends, if the entries of either side stand
// in order, and then the ids are marked, and no others.
fn fields_fault(
    sheet: &[u16; 520],
    aligns: &[u16],
    layout: &[u8],
    rows: &[u32],
    src: Source,
    frame: Frame,
    marks: &mut [u64; 1024],
) -> Result<Option<usize>, u32>
    requires in_slice { InSlice layout.now rows.now src }
    requires marks { Marks marks.old [] }
    ensures sound { OnOk result (fields_fault sheet.now frame.width frame.labels aligns.now frame.is_record frame.base [] (entries_of layout.now rows.now src) ≡ 0) }
    ensures broken { IfErr result (λ k. (k ≡ fields_fault sheet.now frame.width frame.labels aligns.now frame.is_record frame.base [] (entries_of layout.now rows.now src)) × (k ≢ 0)) }
    ensures only_ids { OnOk result (Only marks.new (ids_of (entries_of layout.now rows.now src))) }
    ensures in_turn { IfOk result (λ in_order. IfSome in_order (λ end. InTurn frame.is_record frame.base 0 frame.base (entries_of layout.now rows.now src) end)) }
{
    let mut left = src;
    let mut so = Course {
        in_order: true,
        cursor: 0,
        beyond: frame.base,
    };
    for _ in 0..src.count {
        let e = entries::entry_at(layout, rows, left);
        let c = fields::class_of(sheet, e);
        let seen = marks::is_marked(marks, c.id);
        if let Some(number) = fields::check_field(sheet, aligns, frame, seen, e) {
            return Err(number);
        }
        note(sheet, marks, e);
        so = onward(frame, so, e);
        left = entries::rest(left);
    }
    if so.in_order {
        return Ok(Some(so.cursor));
    }
    Ok(None)
}

// Clears the marks of the entries' ids.
fn wipe_ids(sheet: &[u16; 520], layout: &[u8], rows: &[u32], src: Source, marks: &mut [u64; 1024])
    requires in_slice { InSlice layout.now rows.now src }
    requires only { Only marks.old (ids_of (entries_of layout.now rows.now src)) }
    ensures { Marks marks.new [] }
{
    let mut left = src;
    for _ in 0..src.count {
        let e = entries::entry_at(layout, rows, left);
        let c = fields::class_of(sheet, e);
        marks::wipe(marks, c.id);
        left = entries::rest(left);
    }
}

// How many looks a search may take from the front again before marks cost less: one for each entry and one for 16 places. Where
// no owners are lent one more for each entry and 1,024 more, since all the rules are then gone through once more.
fn looks(count: usize, base: usize, lent: usize) -> usize {
    let entries = walk::smaller(count, 65536);
    let places = walk::smaller(base, 65536) / 16;
    if lent == 65536 {
        return entries + places;
    }
    2 * entries + places + 1024
}

// 82, or 0, where the entries of the base stand in order and the last ends at `end`.
fn unfilled(end: usize, base: usize) -> u32
    ensures { result ≡ cond (eqb end base) 0 82 }
{
    if end == base {
        return 0;
    }
    refusal::BASE_UNFILLED
}

// The first of numbers 81 to 83 that entries give which passed 71 to 80, or 0: by search, unless `by_marks` holds; by marks where
// no search is made or it gives up; or there are too few owners for the marks. The owners come back as they were lent.
fn tiling(
    layout: &[u8],
    rows: &[u32],
    src: Source,
    frame: Frame,
    by_marks: bool,
    owners: &mut [u16],
) -> u32
    requires in_slice { InSlice layout.now rows.now src }
    requires passed { Passed frame.is_record frame.base (entries_of layout.now rows.now src) }
    requires unowned { Unowned owners.old }
    ensures tried { Tried owners.old (tiling_fault frame.is_record frame.base (entries_of layout.now rows.now src)) result }
    ensures owners_unchanged { owners.new ≡ owners.old }
{
    if !by_marks {
        let spare = looks(src.count, frame.base, owners.len());
        let v = by_search::tiling_by_search(layout, rows, src, frame, spare);
        if v != GAVE_UP {
            return v;
        }
    }
    if by_marks::too_few(layout, rows, src, frame, owners.len()) {
        return GAVE_UP;
    }
    by_marks::tiling_by_marks(layout, rows, src, frame, owners)
}

// The first of numbers 71 to 83 that a record or a struct gives, or 0, with 81 to 83 as `tiling` has them where the walk over 71 to 80 has
// not told them. The marks of ids are clear before, and after 0; the owners come back as they were lent.
pub(crate) fn seq_fault(
    sheet: &[u16; 520],
    aligns: &[u16],
    layout: &[u8],
    rows: &[u32],
    item: Item,
    is_record: bool,
    how: How,
    marks: &mut [u64; 1024],
    owners: &mut [u16],
) -> u32
    requires in_slice { InSlice layout.now rows.now item.entries }
    requires marks { Marks marks.old [] }
    requires base_bound { item.base < 65536 }
    requires unowned { Unowned owners.old }
    ensures tried { Tried owners.old (seq_fault sheet.now how.width how.labels aligns.now is_record (judged item.base (entries_of layout.now rows.now item.entries))) result }
    ensures clean { Clean result marks.new }
    ensures owners_unchanged { owners.new ≡ owners.old }
{
    let src = item.entries;
    let frame = Frame {
        is_record,
        base: item.base,
        width: how.width,
        labels: how.labels,
    };
    let in_order = match fields_fault(sheet, aligns, layout, rows, src, frame, marks) {
        Ok(in_order) => in_order,
        Err(number) => return number,
    };
    wipe_ids(sheet, layout, rows, src, marks);
    if !how.by_marks {
        if let Some(end) = in_order {
            return unfilled(end, frame.base);
        }
    }
    tiling(layout, rows, src, frame, how.by_marks, owners)
}
