// Numbers 81 to 83 by marks: each place of a record is marked with the field that owns it, and the marks are walked.
ghost use Rattle.std.specs.Prelude.{◌≡◌, true, false, ◌<◌, ◌≤◌, max, length};
ghost use Rattle.plain_tiling.specs.Plain.{base_by_marks, ext_by_marks};
ghost use Rattle.plain_tiling.specs.Places.{Unowned, Enough};
ghost use Rattle.plain_tiling.specs.Marking.{Marked, end_by_marks};
ghost use Rattle.item_rules.specs.Rules.{spans, tiling_fault};
ghost use Rattle.item_rules.specs.Entries.{entries_of, InSlice};
ghost use Rattle.item_rules.specs.Engines.{Passed, Markable};

use crate::{Painted, Source, entries};
use fields::Frame;

// A place that no field reaches.
const NOWHERE: usize = 65536;

fn larger(a: usize, b: usize) -> usize
    ensures { result ≡ max a b }
{
    if a < b { b } else { a }
}

// Marks the entries of one side, which lie from `start` on, one after the other, until one finds a place taken. The sides
// are base, and extension where `ext` holds.
fn mark_side(
    layout: &[u8],
    rows: &[u32],
    src: Source,
    frame: Frame,
    ext: bool,
    start: usize,
    owners: &mut [u16],
) -> Painted
    requires in_slice { InSlice layout.now rows.now src }
    requires enough { Enough (length owners.old) start (spans frame.is_record frame.base ext (entries_of layout.now rows.now src)) }
    requires unowned { Unowned owners.old }
    ensures { Marked (length owners.old) start (spans frame.is_record frame.base ext (entries_of layout.now rows.now src)) owners.new result.clash result.top }
{
    let mut left = src;
    let mut owner: u16 = 0;
    let mut top = start;
    for _ in 0..src.count {
        let e = entries::entry_at(layout, rows, left);
        left = entries::rest(left);
        let x = fields::extent_of(frame, ext, e);
        if x.other {
            continue;
        }
        let a = x.off;
        let z = x.end;
        if plain_tiling::is_taken(owners, a, z) {
            return Painted { clash: true, top };
        }
        owner += 1;
        plain_tiling::give(owners, a, z, owner);
        top = larger(top, z);
    }
    Painted { clash: false, top }
}

// Where the entries of one side end, if they lie end to end from `start` on, or NOWHERE. Nobody owns a place before, nor after.
fn side_end(
    layout: &[u8],
    rows: &[u32],
    src: Source,
    frame: Frame,
    ext: bool,
    start: usize,
    owners: &mut [u16],
) -> usize
    requires in_slice { InSlice layout.now rows.now src }
    requires enough { Enough (length owners.old) start (spans frame.is_record frame.base ext (entries_of layout.now rows.now src)) }
    requires unowned { Unowned owners.old }
    ensures value { result ≡ end_by_marks start (spans frame.is_record frame.base ext (entries_of layout.now rows.now src)) }
    ensures owners_unchanged { owners.new ≡ owners.old }
{
    let m = mark_side(layout, rows, src, frame, ext, start, owners);
    let top = m.top;
    let end = plain_tiling::walk(owners, start, top);
    plain_tiling::give(owners, start, top, 0);
    if m.clash {
        return NOWHERE;
    }
    if end != top {
        return NOWHERE;
    }
    top
}

// 81 and 82 of entries that passed 71 to 80, or 0. Nobody owns a place before, nor after.
fn base_by_marks(layout: &[u8], rows: &[u32], src: Source, frame: Frame, owners: &mut [u16]) -> u32
    requires in_slice { InSlice layout.now rows.now src }
    requires passed { Passed frame.is_record frame.base (entries_of layout.now rows.now src) }
    requires markable { Markable (length owners.old) frame.is_record frame.base (entries_of layout.now rows.now src) }
    requires unowned { Unowned owners.old }
    ensures value { result ≡ base_by_marks frame.base (spans frame.is_record frame.base false (entries_of layout.now rows.now src)) }
    ensures owners_unchanged { owners.new ≡ owners.old }
{
    let end = side_end(layout, rows, src, frame, false, 0, owners);
    if end == NOWHERE {
        return refusal::BASE_GAP;
    }
    if end != frame.base {
        return refusal::BASE_UNFILLED;
    }
    0
}

// 83 of the same, or 0.
fn ext_by_marks(layout: &[u8], rows: &[u32], src: Source, frame: Frame, owners: &mut [u16]) -> u32
    requires in_slice { InSlice layout.now rows.now src }
    requires passed { Passed frame.is_record frame.base (entries_of layout.now rows.now src) }
    requires markable { Markable (length owners.old) frame.is_record frame.base (entries_of layout.now rows.now src) }
    requires unowned { Unowned owners.old }
    ensures value { result ≡ ext_by_marks frame.base (spans frame.is_record frame.base true (entries_of layout.now rows.now src)) }
    ensures owners_unchanged { owners.new ≡ owners.old }
{
    let end = side_end(layout, rows, src, frame, true, frame.base, owners);
    if end == NOWHERE {
        return refusal::EXTENSION_GAP;
    }
    0
}

// Whether n marks are too few for entries that passed 71 to 80: the base or an entry does not end below n. 65,536 never are.
pub(crate) fn too_few(layout: &[u8], rows: &[u32], src: Source, frame: Frame, n: usize) -> bool
    requires in_slice { InSlice layout.now rows.now src }
    requires passed { Passed frame.is_record frame.base (entries_of layout.now rows.now src) }
    ensures markable { result ≡ false → Markable n frame.is_record frame.base (entries_of layout.now rows.now src) }
    ensures below_65536 { result ≡ true → n ≡ 65536 → ⊥ }
{
    if n == 65536 {
        return false;
    }
    if n <= frame.base {
        return true;
    }
    let mut left = src;
    for _ in 0..src.count {
        let e = entries::entry_at(layout, rows, left);
        let x = fields::extent_of(frame, true, e);
        if n <= x.end {
            return true;
        }
        left = entries::rest(left);
    }
    false
}

// The first of numbers 81 to 83 that entries give which passed 71 to 80, or 0. Nobody owns a place before, nor after.
pub(crate) fn tiling_by_marks(
    layout: &[u8],
    rows: &[u32],
    src: Source,
    frame: Frame,
    owners: &mut [u16],
) -> u32
    requires in_slice { InSlice layout.now rows.now src }
    requires passed { Passed frame.is_record frame.base (entries_of layout.now rows.now src) }
    requires markable { Markable (length owners.old) frame.is_record frame.base (entries_of layout.now rows.now src) }
    requires unowned { Unowned owners.old }
    ensures value { result ≡ tiling_fault frame.is_record frame.base (entries_of layout.now rows.now src) }
    ensures owners_unchanged { owners.new ≡ owners.old }
{
    let b = base_by_marks(layout, rows, src, frame, owners);
    if b != 0 {
        return b;
    }
    ext_by_marks(layout, rows, src, frame, owners)
}
