// Sections: each body is read as its own part of the layout.
ghost use Rattle.std.specs.Prelude.{◌≡◌, [], ◌<◌};
ghost use Rattle.numbers.specs.Numbers.{Past};
ghost use Rattle.marks.specs.Marks.{Marks};
ghost use Rattle.table.specs.Table.{put_row, Room, Ran};
ghost use Rattle.layout.specs.Reader.{record_head, record_body, struct_body, label_body, body_of, sections_at, group_at, groups_at};
ghost use Rattle.layout.specs.Labels.{Cleared};
ghost use Rattle.layout.specs.Kinds.{number_of};

use super::{Kind, labels, members, rows};
use refusal::{LAYOUT_TRUNCATED, Refusal, refuse};

pub(crate) fn groups(
    s: &[u8],
    at: usize,
    light: bool,
    table: &mut [u32],
) -> Result<(usize, usize), Refusal>
    requires { Room 0 s.now at 0 }
    ensures { Ran (put_row 9) 0 s.now (groups_at light s.now at) 0 table.old table.new result }
{
    let mut marks = [0u64; 1024];
    let (a, p) = group(Kind::Record, s, at, light, table, 0, &mut marks)?;
    let (b, q) = group(Kind::Struct, s, p, light, table, a, &mut marks)?;
    group(Kind::LabelDef, s, q, light, table, b, &mut marks)
}

fn group(
    kind: Kind,
    s: &[u8],
    at: usize,
    light: bool,
    table: &mut [u32],
    n: usize,
    marks: &mut [u64; 1024],
) -> Result<(usize, usize), Refusal>
    requires room { Room 0 s.now at n }
    requires marks { Marks marks.old [] }
    ensures ran { Ran (put_row 9) 0 s.now (group_at light (number_of kind) s.now at) n table.old table.new result }
    ensures cleared { Cleared result marks.new }
{
    let (count, p) = numbers::u16_at(s, at, LAYOUT_TRUNCATED)?;
    sections(kind, s, p, count, light, table, n, marks)
}

fn sections(
    kind: Kind,
    s: &[u8],
    at: usize,
    count: usize,
    light: bool,
    table: &mut [u32],
    n: usize,
    marks: &mut [u64; 1024],
) -> Result<(usize, usize), Refusal>
    requires { Room 0 s.now at n × Marks marks.old [] }
    ensures ran { Ran (put_row 9) 0 s.now (sections_at light (number_of kind) count s.now at) n table.old table.new result }
    ensures cleared { Cleared result marks.new }
{
    let mut p = at;
    let mut k = n;
    for _ in 0..count {
        let (start, end) = wire::section_at(s, p)?;
        match body(kind, &s[start..end], light, start, table, k, marks) {
            Ok((m, _)) => k = m,
            Err(why) => return refuse(why.number, start + why.place),
        }
        p = end;
    }
    Ok((k, p))
}

// A section's body by its kind.
fn body(
    kind: Kind,
    s: &[u8],
    light: bool,
    base: usize,
    table: &mut [u32],
    n: usize,
    marks: &mut [u64; 1024],
) -> Result<(usize, usize), Refusal>
    requires room { Room base s.now 0 n }
    requires marks { Marks marks.old [] }
    ensures ran { Ran (put_row 9) base s.now (body_of light (number_of kind) base s.now) n table.old table.new result }
    ensures cleared { Cleared result marks.new }
{
    match kind {
        Kind::Record => record_body(s, light, base, table, n),
        Kind::Struct => struct_body(s, light, base, table, n),
        Kind::LabelDef => label_body(s, light, base, table, n, marks),
    }
}

// The record whose section's body is `s`, `base` bytes into the layout.
fn record_body(
    s: &[u8],
    light: bool,
    base: usize,
    table: &mut [u32],
    n: usize,
) -> Result<(usize, usize), Refusal>
    requires { Room base s.now 0 n }
    ensures { Ran (put_row 9) base s.now (record_body light base s.now) n table.old table.new result }
{
    let (_, p) = record_head(s)?;
    let (len, q) = wire::name_in(s, p, light)?;
    let (count, _) = numbers::u16_at(s, q, LAYOUT_TRUNCATED)?;
    let row = rows::record_row(s, base + (p + 1), len, count);
    table::put_row(table, n, &row);
    members::fields(s, q, light, base, table, n + 1)
}

// The place after a record's rtype, schema, base size and hash; 50 at the first of them that does not fit.
fn record_head(s: &[u8]) -> Result<(usize, usize), Refusal>
    ensures { (result ≡ record_head s.now) × Past 15 14 s.now 0 result }
{
    let n = s.len();
    if 14 <= n {
        return Ok((14, 14));
    }
    if n < 2 {
        return refuse(LAYOUT_TRUNCATED, 0);
    }
    if n < 4 {
        return refuse(LAYOUT_TRUNCATED, 2);
    }
    if n < 6 {
        return refuse(LAYOUT_TRUNCATED, 4);
    }
    refuse(LAYOUT_TRUNCATED, 6)
}

// The struct whose section's body is `s`, `base` bytes into the layout.
fn struct_body(
    s: &[u8],
    light: bool,
    base: usize,
    table: &mut [u32],
    n: usize,
) -> Result<(usize, usize), Refusal>
    requires { Room base s.now 0 n }
    ensures { Ran (put_row 9) base s.now (struct_body light base s.now) n table.old table.new result }
{
    let (size, p) = numbers::u16_at(s, 0, LAYOUT_TRUNCATED)?;
    let (len, q) = wire::name_in(s, p, light)?;
    let (count, _) = numbers::u16_at(s, q, LAYOUT_TRUNCATED)?;
    let row = rows::struct_row(base + (p + 1), len, size, count);
    table::put_row(table, n, &row);
    members::fields(s, q, light, base, table, n + 1)
}

// The label def whose section's body is `s`.
fn label_body(
    s: &[u8],
    light: bool,
    base: usize,
    table: &mut [u32],
    n: usize,
    marks: &mut [u64; 1024],
) -> Result<(usize, usize), Refusal>
    requires room { Room base s.now 0 n }
    requires marks { Marks marks.old [] }
    ensures ran { Ran (put_row 9) base s.now (label_body light base s.now) n table.old table.new result }
    ensures cleared { Cleared result marks.new }
{
    let (len, p) = wire::name_in(s, 0, light)?;
    let (count, q) = numbers::u16_at(s, p, LAYOUT_TRUNCATED)?;
    let row = rows::label_def_row(base + 1, len, count);
    table::put_row(table, n, &row);
    labels::labels(s, q, count, light, base, table, n + 1, marks)
}
