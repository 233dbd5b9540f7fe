// All records and structs of a layout, or of rows: numbers 60 to 83.
ghost use Rattle.std.specs.Prelude.{◌≡◌, true, false, [], ◌<◌, ◌≤◌, min, length};
ghost use Rattle.marks.specs.Marks.{Marks};
ghost use Rattle.item_rules.specs.Rules.{struct_fault, record_fault, structs_fault, records_fault};
ghost use Rattle.plain_tiling.specs.Places.{Unowned};
ghost use Rattle.item_rules.specs.Tried.{Tried};
ghost use Rattle.item_rules.specs.Entries.{InSlice};
ghost use Rattle.item_rules.specs.Ids.{Clean};
ghost use Rattle.codec.specs.Telling.{passed};
ghost use Rattle.item_rules.specs.Items.{item_seq, seqs_from, Good, Ready, first_aligns, task_fault};

use crate::sequence::seq_fault;
use crate::{GAVE_UP, How, Item, Place, Task, sequence, walk};
use refusal::Refusal;

fn wide(x: u16) -> usize
    ensures { result ≡ x }
{
    x as usize
}

// The alignment of each struct, of the first 65,536.
fn fill_aligns(sheet: &[u16; 520], layout: &[u8], rows: &[u32], place: Place, aligns: &mut [u16])
    requires good { Good layout.now rows.now false place }
    requires aligns_len { length aligns.old ≡ min place.left 65536 }
    ensures { aligns.new ≡ first_aligns sheet.now (seqs_from layout.now rows.now false place) }
{
    let mut p = place;
    for a in aligns.iter_mut() {
        let Some((item, after)) = walk::next_item(layout, rows, false, p) else {
            return;
        };
        *a = sequence::struct_align(sheet, layout, rows, item.entries);
        p = after;
    }
}

// The first of numbers 60 and 71 to 83 that a struct gives, or 0.
fn struct_fault(
    sheet: &[u16; 520],
    aligns: &[u16],
    layout: &[u8],
    rows: &[u32],
    item: Item,
    how: How,
    marks: &mut [u64; 1024],
    owners: &mut [u16],
) -> u32
    requires in_slice { InSlice layout.now rows.now item.entries }
    requires marks { Marks marks.old [] }
    requires base_bound { item.base < 65536 }
    requires unowned { Unowned owners.old }
    ensures tried { Tried owners.old (struct_fault sheet.now how.width how.labels aligns.now (item_seq layout.now rows.now item)) result }
    ensures clean { Clean result marks.new }
    ensures owners_unchanged { owners.new ≡ owners.old }
{
    let src = item.entries;
    let a = sequence::struct_align(sheet, layout, rows, src) as usize;
    if item.base % a != 0 {
        return refusal::STRUCT_SIZE;
    }
    seq_fault(sheet, aligns, layout, rows, item, false, how, marks, owners)
}

// The first of numbers 61 to 64 and 71 to 83 that a record gives, or 0; `twice` says that its rtype came before.
fn record_fault(
    sheet: &[u16; 520],
    aligns: &[u16],
    layout: &[u8],
    rows: &[u32],
    item: Item,
    twice: bool,
    how: How,
    marks: &mut [u64; 1024],
    owners: &mut [u16],
) -> u32
    requires in_slice { InSlice layout.now rows.now item.entries }
    requires marks { Marks marks.old [] }
    requires base_bound { item.base < 65536 }
    requires unowned { Unowned owners.old }
    ensures tried { Tried owners.old (record_fault sheet.now how.width how.labels aligns.now twice (item_seq layout.now rows.now item)) result }
    ensures clean { Clean result marks.new }
    ensures owners_unchanged { owners.new ≡ owners.old }
{
    if twice {
        return refusal::RTYPE_TWICE;
    }
    if item.rtype % 256 == 78 {
        return refusal::RTYPE_RESERVED;
    }
    if item.base < wide(sheet[518]) {
        return refusal::BASE_BELOW_HEADER;
    }
    if item.base % 8 != 0 {
        return refusal::BASE_NOT_OF_8;
    }
    seq_fault(sheet, aligns, layout, rows, item, true, how, marks, owners)
}

// The first number that a struct gives, in table order, or 0.
fn structs_fault(
    sheet: &[u16; 520],
    aligns: &[u16],
    layout: &[u8],
    rows: &[u32],
    task: Task,
    marks: &mut [u64; 1024],
    owners: &mut [u16],
) -> u32
    requires good { Good layout.now rows.now false task.structs }
    requires marks { Marks marks.old [] }
    requires unowned { Unowned owners.old }
    ensures tried { Tried owners.old (structs_fault sheet.now task.how.width task.how.labels aligns.now (seqs_from layout.now rows.now false task.structs)) result }
    ensures clean { Clean result marks.new }
    ensures owners_unchanged { owners.new ≡ owners.old }
{
    let how = task.how;
    let mut p = task.structs;
    // Each item tells where the next one is.
    while let Some((item, after)) = walk::next_item(layout, rows, false, p) {
        let v = struct_fault(sheet, aligns, layout, rows, item, how, marks, owners);
        if v != 0 {
            return v;
        }
        p = after;
    }
    0
}

// The first number that a record gives, in table order, or 0.
fn records_fault(
    sheet: &[u16; 520],
    aligns: &[u16],
    layout: &[u8],
    rows: &[u32],
    task: Task,
    marks: &mut [u64; 1024],
    owners: &mut [u16],
) -> u32
    requires good { Good layout.now rows.now true task.records }
    requires marks { Marks marks.old [] }
    requires unowned { Unowned owners.old }
    ensures { Tried owners.old (records_fault sheet.now task.how.width task.how.labels aligns.now [] (seqs_from layout.now rows.now true task.records)) result }
{
    let mut rtypes = [0u64; 1024];
    let how = task.how;
    let mut p = task.records;
    // Each item tells where the next one is.
    while let Some((item, after)) = walk::next_item(layout, rows, true, p) {
        let rtype = item.rtype;
        let seen = marks::is_marked(&rtypes, rtype);
        let v = record_fault(sheet, aligns, layout, rows, item, seen, how, marks, owners);
        if v != 0 {
            return v;
        }
        marks::mark(&mut rtypes, rtype);
        p = after;
    }
    0
}

// The rules, with room for the alignment of each struct.
fn rules_in(
    sheet: &[u16; 520],
    layout: &[u8],
    rows: &[u32],
    task: Task,
    aligns: &mut [u16],
    owners: &mut [u16],
) -> u32
    requires good { Good layout.now rows.now false task.structs }
    requires good_records { Good layout.now rows.now true task.records }
    requires aligns_len { length aligns.old ≡ min task.structs.left 65536 }
    requires unowned { Unowned owners.old }
    ensures { Tried owners.old (task_fault sheet.now layout.now rows.now task) result }
{
    fill_aligns(sheet, layout, rows, task.structs, aligns);
    let mut marks = [0u64; 1024];
    let v = structs_fault(sheet, aligns, layout, rows, task, &mut marks, owners);
    if v != 0 {
        return v;
    }
    records_fault(sheet, aligns, layout, rows, task, &mut marks, owners)
}

// The rules, with the first numbers of a table for the alignments, as many as there are structs, or 65,536.
fn rules_by(
    sheet: &[u16; 520],
    layout: &[u8],
    rows: &[u32],
    task: Task,
    table: &mut [u16],
    owners: &mut [u16],
) -> u32
    requires ready { Ready layout.now rows.now task.structs task.records }
    requires left_in_bounds { min task.structs.left 65536 ≤ length table.old }
    requires unowned { Unowned owners.old }
    ensures { Tried owners.old (task_fault sheet.now layout.now rows.now task) result }
{
    let n = walk::smaller(task.structs.left, 65536);
    rules_in(sheet, layout, rows, task, &mut table[..n], owners)
}

// The rules, with room for the alignments of n structs; of 65,536 for any number of them, since no field names a later one.
fn rules_of<const N: usize>(
    sheet: &[u16; 520],
    layout: &[u8],
    rows: &[u32],
    task: Task,
    owners: &mut [u16],
) -> u32
    requires ready { Ready layout.now rows.now task.structs task.records }
    requires left_bound { min task.structs.left 65536 ≤ N }
    requires small { N ≤ 65536 }
    requires unowned { Unowned owners.old }
    ensures { Tried owners.old (task_fault sheet.now layout.now rows.now task) result }
{
    let mut table = [0u16; N];
    rules_by(sheet, layout, rows, task, &mut table, owners)
}

// The rules of at most 4,096 structs. The table for the alignments is no larger than it must be, since it is cleared first.
fn rules_few(sheet: &[u16; 520], layout: &[u8], rows: &[u32], task: Task, owners: &mut [u16]) -> u32
    requires ready { Ready layout.now rows.now task.structs task.records }
    requires left_bound { task.structs.left ≤ 4096 }
    requires unowned { Unowned owners.old }
    ensures { Tried owners.old (task_fault sheet.now layout.now rows.now task) result }
{
    if task.structs.left <= 64 {
        return rules_of::<64>(sheet, layout, rows, task, owners);
    }
    rules_of::<4096>(sheet, layout, rows, task, owners)
}

// The rules by search alone, or that it gave up.
fn rules_searched(sheet: &[u16; 520], layout: &[u8], rows: &[u32], task: Task) -> u32
    requires ready { Ready layout.now rows.now task.structs task.records }
    requires left_bound { task.structs.left ≤ 4096 }
    ensures { Tried [] (task_fault sheet.now layout.now rows.now task) result }
{
    let mut none = [0u16; 0];
    rules_few(sheet, layout, rows, task, &mut none)
}

// The rules with an owner for each of the first 8,192 places, or that a record or a struct reaches past them. They are 16 KiB,
// in a frame of their own.
fn rules_near(sheet: &[u16; 520], layout: &[u8], rows: &[u32], task: Task) -> u32
    requires ready { Ready layout.now rows.now task.structs task.records }
    requires left_bound { task.structs.left ≤ 4096 }
    ensures { Tried [] (task_fault sheet.now layout.now rows.now task) result }
{
    let mut owners = [0u16; 8192];
    rules_few(sheet, layout, rows, task, &mut owners)
}

// A first try, without the large frames: by marks where the task says so, else by search.
fn rules_tried(sheet: &[u16; 520], layout: &[u8], rows: &[u32], task: Task) -> u32
    requires ready { Ready layout.now rows.now task.structs task.records }
    requires left_bound { task.structs.left ≤ 4096 }
    ensures { Tried [] (task_fault sheet.now layout.now rows.now task) result }
{
    if task.how.by_marks {
        return rules_near(sheet, layout, rows, task);
    }
    rules_searched(sheet, layout, rows, task)
}

// The rules with an owner for each place, which a record or a struct is marked with where the task says so or its search gives
// up. This is the only frame that holds them all, 128 KiB; a table for 65,536 structs is as large again, in a frame of its own.
fn rules_marked(sheet: &[u16; 520], layout: &[u8], rows: &[u32], task: Task) -> u32
    requires { Ready layout.now rows.now task.structs task.records }
    ensures { result ≡ (task_fault sheet.now layout.now rows.now task) }
{
    let mut owners = [0u16; 65536];
    if task.structs.left <= 4096 {
        return rules_few(sheet, layout, rows, task, &mut owners);
    }
    rules_of::<65536>(sheet, layout, rows, task, &mut owners)
}

// The rules of the structs and of the records. Where the task says so all of 81 to 83 are found by marks; else by search, and
// by marks only for a record or a struct whose search gives up. Layouts of up to 4,096 structs whose search gives an answer, or
// whose records and structs end below place 8,192 where the task says so, pay nothing for the large frames.
fn first_number(sheet: &[u16; 520], layout: &[u8], rows: &[u32], task: Task) -> u32
    requires { Ready layout.now rows.now task.structs task.records }
    ensures { result ≡ (task_fault sheet.now layout.now rows.now task) }
{
    if task.structs.left <= 4096 {
        let v = rules_tried(sheet, layout, rows, task);
        if v != GAVE_UP {
            return v;
        }
    }
    rules_marked(sheet, layout, rows, task)
}

// The same, as a refusal, which is about no byte.
pub(crate) fn rules(
    sheet: &[u16; 520],
    layout: &[u8],
    rows: &[u32],
    task: Task,
) -> Result<(), Refusal>
    requires { Ready layout.now rows.now task.structs task.records }
    ensures { result ≡ passed (task_fault sheet.now layout.now rows.now task) }
{
    let number = first_number(sheet, layout, rows, task);
    if number == 0 {
        return Ok(());
    }
    Err(Refusal { number, place: 0 })
}
