// The fields of a record or a struct: entries, then one name each.
ghost use Rattle.std.specs.Prelude.{◌≡◌};
ghost use Rattle.table.specs.Table.{put_row, Room, Ran};
ghost use Rattle.layout.specs.Reader.{entries_at, names_at, fields_at};

use super::rows;
use refusal::Refusal;

pub(crate) fn fields(
    s: &[u8],
    at: usize,
    light: bool,
    base: usize,
    table: &mut [u32],
    n: usize,
) -> Result<(usize, usize), Refusal>
    requires { Room base s.now at n }
    ensures { Ran (put_row 9) base s.now (fields_at light base s.now at) n table.old table.new result }
{
    let (count, p) = numbers::u16_at(s, at, refusal::LAYOUT_TRUNCATED)?;
    let (m, q) = entries(s, p, count, light, base, table, n)?;
    names(s, q, count, light, base, table, m)
}

fn entries(
    s: &[u8],
    at: usize,
    count: usize,
    light: bool,
    base: usize,
    table: &mut [u32],
    n: usize,
) -> Result<(usize, usize), Refusal>
    requires { Room base s.now at n }
    ensures { Ran (put_row 9) base s.now (entries_at light base count s.now at) n table.old table.new result }
{
    let mut p = at;
    let mut k = n;
    for _ in 0..count {
        let (_, next) = numbers::take(s, p, super::D, refusal::LAYOUT_TRUNCATED)?;
        let row = rows::entry_row(entry::entry_bytes(s, p));
        table::put_row(table, k, &row);
        k += 1;
        p = next;
    }
    Ok((k, p))
}

fn names(
    s: &[u8],
    at: usize,
    count: usize,
    light: bool,
    base: usize,
    table: &mut [u32],
    n: usize,
) -> Result<(usize, usize), Refusal>
    requires { Room base s.now at n }
    ensures { Ran (put_row 9) base s.now (names_at light base count s.now at) n table.old table.new result }
{
    let mut p = at;
    let mut k = n;
    for _ in 0..count {
        let (len, next) = wire::name_in(s, p, light)?;
        let row = rows::name_row(base + (p + 1), len);
        table::put_row(table, k, &row);
        k += 1;
        p = next;
    }
    Ok((k, p))
}
