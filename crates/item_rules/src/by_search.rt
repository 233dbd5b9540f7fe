// Numbers 81 to 83: base entries tile 0 to base, extensions go on from it. Each time the entry at the cursor is searched for.
ghost use Rattle.std.specs.Prelude.{◌≡◌, true, false, [], ◌<◌, ◌≤◌, length, IfSome};
ghost use Rattle.item_rules.specs.Rules.{spans, base_fault, ext_fault, tiling_fault};
ghost use Rattle.item_rules.specs.Entries.{entries_of, InSlice};
ghost use Rattle.item_rules.specs.Engines.{Passed};
ghost use Rattle.item_rules.specs.Tried.{Tried};
ghost use Rattle.item_rules.specs.Search.{starts_here, on_side, None, Proper, Chase, PartOf, Sought, Hits};

use crate::{Chased, GAVE_UP, Hit, Source, Turn, entries};
use fields::Frame;

// A place that no entry reaches.
const NEVER: usize = 131072;

// Whether the entry is of the side and starts at the cursor. The sides are base, and extension where `ext` holds.
fn starts_here(frame: Frame, ext: bool, cursor: usize, e: [u8; 11]) -> bool
    ensures { result ≡ starts_here frame.is_record frame.base ext cursor e }
{
    let x = fields::extent_of(frame, ext, e);
    // The place first, which most entries miss: the other way round a search took 1.3 times as long.
    x.off == cursor && !x.other
}

// 1 for an entry of the side, else 0.
fn on_side(frame: Frame, ext: bool, e: [u8; 11]) -> usize
    ensures { (result ≡ on_side frame.is_record frame.base ext e) × (result ≤ 1) }
{
    let x = fields::extent_of(frame, ext, e);
    if x.other {
        return 0;
    }
    1
}

// The first entry of the side that starts at the cursor.
fn seek(
    layout: &[u8],
    rows: &[u32],
    src: Source,
    frame: Frame,
    ext: bool,
    cursor: usize,
) -> Option<Hit>
    requires { InSlice layout.now rows.now src }
    ensures { Sought layout.now rows.now frame.is_record frame.base ext src cursor result }
{
    let mut left = src;
    for _ in 0..src.count {
        let e = entries::entry_at(layout, rows, left);
        if starts_here(frame, ext, cursor, e) {
            let x = fields::extent_of(frame, ext, e);
            return Some(Hit {
                end: x.end,
                rest: entries::rest(left),
            });
        }
        left = entries::rest(left);
    }
    None
}

// The same with the search begun at `from`, and then from the front; nothing where fewer looks are to spare than there are entries.
fn seek_on(
    layout: &[u8],
    rows: &[u32],
    src: Source,
    from: Source,
    frame: Frame,
    ext: bool,
    cursor: usize,
    spare: usize,
) -> Option<Turn>
    requires in_slice { InSlice layout.now rows.now src }
    requires part_of { PartOf layout.now rows.now frame.is_record frame.base ext src from }
    requires proper { Proper (spans frame.is_record frame.base ext (entries_of layout.now rows.now src)) }
    ensures { IfSome result (λ turn. Hits layout.now rows.now frame.is_record frame.base ext src cursor turn.hit) }
{
    if let Some(near) = seek(layout, rows, from, frame, ext, cursor) {
        return Some(Turn {
            hit: Some(near),
            spare,
        });
    }
    if spare < src.count {
        return None;
    }
    let hit = seek(layout, rows, src, frame, ext, cursor);
    Some(Turn {
        hit,
        spare: spare - src.count,
    })
}

// How many entries the side has.
fn count(layout: &[u8], rows: &[u32], src: Source, frame: Frame, ext: bool) -> usize
    requires { InSlice layout.now rows.now src }
    ensures { result ≡ length (spans frame.is_record frame.base ext (entries_of layout.now rows.now src)) }
{
    let mut left = src;
    let mut k = 0;
    for _ in 0..src.count {
        let e = entries::entry_at(layout, rows, left);
        k += on_side(frame, ext, e);
        left = entries::rest(left);
    }
    k
}

// From end to end, until no entry of the side starts at the cursor; nothing where no looks are to spare. None starts at `stop`,
// where the search is spared.
fn chase(
    layout: &[u8],
    rows: &[u32],
    src: Source,
    frame: Frame,
    ext: bool,
    start: usize,
    stop: usize,
    spare: usize,
) -> Option<Chased>
    requires in_slice { InSlice layout.now rows.now src }
    requires proper { Proper (spans frame.is_record frame.base ext (entries_of layout.now rows.now src)) }
    requires start_bound { start < 65536 }
    requires none { stop < 131072 → None (spans frame.is_record frame.base ext (entries_of layout.now rows.now src)) stop }
    ensures { IfSome result (λ far. Chase (spans frame.is_record frame.base ext (entries_of layout.now rows.now src)) start far.used far.cursor) }
{
    let mut used: usize = 0;
    let mut cursor = start;
    let mut from = src;
    let mut looks = spare;
    // How many turns there are is what is asked, so no count bounds them.
    while cursor != stop {
        let turn = seek_on(layout, rows, src, from, frame, ext, cursor, looks)?;
        let Some(hit) = turn.hit else {
            return Some(Chased { used, cursor });
        };
        used += 1;
        cursor = hit.end;
        from = hit.rest;
        looks = turn.spare;
    }
    Some(Chased { used, cursor })
}

// 81 and 82 of entries that passed 71 to 80, k of which are on the side of the base, or 0; or the search gave up.
fn base_fault(layout: &[u8], rows: &[u32], src: Source, frame: Frame, k: usize, spare: usize) -> u32
    requires in_slice { InSlice layout.now rows.now src }
    requires proper { Proper (spans frame.is_record frame.base false (entries_of layout.now rows.now src)) }
    requires none { None (spans frame.is_record frame.base false (entries_of layout.now rows.now src)) frame.base }
    requires count { k ≡ length (spans frame.is_record frame.base false (entries_of layout.now rows.now src)) }
    ensures { Tried [] (base_fault frame.is_record frame.base (entries_of layout.now rows.now src)) result }
{
    let Some(c) = chase(layout, rows, src, frame, false, 0, frame.base, spare) else {
        return GAVE_UP;
    };
    if c.used != k {
        return refusal::BASE_GAP;
    }
    if c.cursor != frame.base {
        return refusal::BASE_UNFILLED;
    }
    0
}

// 83 of the same, k of which are past the base, or 0.
fn ext_fault(layout: &[u8], rows: &[u32], src: Source, frame: Frame, k: usize, spare: usize) -> u32
    requires in_slice { InSlice layout.now rows.now src }
    requires proper { Proper (spans frame.is_record frame.base true (entries_of layout.now rows.now src)) }
    requires base_bound { frame.base < 65536 }
    requires count { k ≡ length (spans frame.is_record frame.base true (entries_of layout.now rows.now src)) }
    ensures { Tried [] (ext_fault frame.is_record frame.base (entries_of layout.now rows.now src)) result }
{
    if k == 0 {
        return 0;
    }
    let Some(c) = chase(layout, rows, src, frame, true, frame.base, NEVER, spare) else {
        return GAVE_UP;
    };
    if c.used != k {
        return refusal::EXTENSION_GAP;
    }
    0
}

// The first of numbers 81 to 83 that entries give which passed 71 to 80, or 0; or the search gave up, with
// no more than `spare` looks on either side that an entry in order would not take.
pub(crate) fn tiling_by_search(
    layout: &[u8],
    rows: &[u32],
    src: Source,
    frame: Frame,
    spare: usize,
) -> u32
    requires in_slice { InSlice layout.now rows.now src }
    requires passed { Passed frame.is_record frame.base (entries_of layout.now rows.now src) }
    ensures { Tried [] (tiling_fault frame.is_record frame.base (entries_of layout.now rows.now src)) result }
{
    let k = count(layout, rows, src, frame, false);
    let b = base_fault(layout, rows, src, frame, k, spare);
    if b != 0 {
        return b;
    }
    ext_fault(layout, rows, src, frame, src.count - k, spare)
}
