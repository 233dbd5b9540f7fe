// Mappings and their intervals.
ghost use Rattle.std.specs.Prelude.{◌≡◌, true, ◌+◌, ◌≤◌, ◌<◌, ◌^◌, length};
ghost use Rattle.numbers.specs.Numbers.{Past};
ghost use Rattle.text.specs.Trim.{trimmed_len};
ghost use Rattle.codec.specs.Lenient.{lax};
ghost use Rattle.dates.specs.Date.{is_date};
ghost use Rattle.dates.specs.Day.{day_of};
ghost use Rattle.dates.specs.Months.{Right};
ghost use Rattle.table.specs.Table.{put_columns, Put, Room, Ran};
ghost use Rattle.symbology_rows.specs.Reader.{symbol_at, date_at, intervals_at, mapping_at, mappings_at, mapped_at};
ghost use Rattle.symbology_format.specs.SymbologyRows.{row6};

use super::lists::{can_be, put_symbol, symbol_at};
use refusal::{
    END_DATE, INTERVAL_COUNT_LARGE, MAPPING_SHORT, RAW_SYMBOL_AFTER_NUL, RAW_SYMBOL_NOT_UTF8,
    Refusal, START_DATE, SYMBOL_AFTER_NUL, SYMBOL_NOT_UTF8,
};

// The mappings: their count, and as many.
pub(crate) fn mapped(
    s: &[u8],
    at: usize,
    width: usize,
    light: bool,
    base: usize,
    table: &mut [u32],
    n: usize,
) -> Result<(usize, usize), Refusal>
    requires room { Room base s.now at n }
    requires width_bound { width < 65536 }
    ensures { Ran (put_columns 6) base s.now (mapped_at light width base n s.now at) n table.old table.new result }
{
    let (count, next) = numbers::u32_at(s, at, refusal::MAPPING_COUNT_MISSING)?;
    if !can_be(count, numbers::left(s, next), width + 4) {
        let number = refusal::MAPPING_COUNT_LARGE;
        return Err(Refusal { number, place: at });
    }
    mappings(s, next, count, width, light, base, table, n)
}

// The mappings. The months of their dates are kept, since most dates are of a few months.
fn mappings(
    s: &[u8],
    at: usize,
    count: usize,
    width: usize,
    light: bool,
    base: usize,
    table: &mut [u32],
    n: usize,
) -> Result<(usize, usize), Refusal>
    requires room { Room base s.now at n }
    requires width_bound { width < 65536 }
    ensures { Ran (put_columns 6) base s.now (mappings_at light width base n count s.now at) n table.old table.new result }
{
    let mut months = [0u64; 64];
    let mut p = at;
    let mut k = n;
    for _ in 0..count {
        let (m, q) = mapping(s, p, width, light, base, table, k, &mut months)?;
        k = m;
        p = q;
    }
    Ok((k, p))
}

// A mapping: its raw symbol, the count of its intervals, and these. Its row is row n, which owns itself and the intervals' rows.
fn mapping(
    s: &[u8],
    at: usize,
    width: usize,
    light: bool,
    base: usize,
    table: &mut [u32],
    n: usize,
    months: &mut [u64; 64],
) -> Result<(usize, usize), Refusal>
    requires room { Room base s.now at n }
    requires width_bound { width < 65536 }
    requires right { Right months.old }
    ensures { Ran (put_columns 6) base s.now (mapping_at light width base n s.now at) n table.old table.new result × Right months.new }
{
    if numbers::left(s, at) < width + 4 {
        let number = MAPPING_SHORT;
        return Err(Refusal { number, place: at });
    }
    let (_, p) = raw_symbol_at(s, at, width, light)?;
    let (count, q) = numbers::u32_at(s, p, MAPPING_SHORT)?;
    if !can_be(count, numbers::left(s, q), width + 8) {
        let number = INTERVAL_COUNT_LARGE;
        return Err(Refusal { number, place: p });
    }
    let part = &s[at..p];
    put_symbol(table, n, 3, base + at, part, count as u32, 0, n);
    intervals(s, q, count, width, light, base, table, n, months)
}

// The raw symbol of a mapping.
fn raw_symbol_at(s: &[u8], at: usize, width: usize, light: bool) -> Result<(usize, usize), Refusal>
    requires { at ≤ length s.now }
    ensures { (result ≡ symbol_at light width 35 36 42 s.now at) × Past (length s.now + 1) width s.now at result }
{
    symbol_at(
        s,
        at,
        width,
        light,
        MAPPING_SHORT,
        RAW_SYMBOL_NOT_UTF8,
        RAW_SYMBOL_AFTER_NUL,
    )
}

// The intervals of the mapping in row `owner`, in the rows after it: two dates and a symbol each. Most begin at the date at which the
// one before them ended, which is not tested again; before the first stands 1 January of year 0.
fn intervals(
    s: &[u8],
    at: usize,
    count: usize,
    width: usize,
    light: bool,
    base: usize,
    table: &mut [u32],
    owner: usize,
    months: &mut [u64; 64],
) -> Result<(usize, usize), Refusal>
    requires { Room base s.now at (owner + 1) × (width < 65536) × Right months.old × (count < 4294967296) }
    ensures { Ran (put_columns 6) base s.now (intervals_at light width base owner count s.now at) (owner + 1) table.old table.new result × Right months.new }
{
    let mut last = 101;
    let mut p = at;
    let first = owner + 1;
    for k in first..first + count {
        let (a, q) = date_at(s, p, light, START_DATE, months, last)?;
        let (b, r) = date_at(s, q, light, END_DATE, months, last)?;
        let (_, e) = interval_name(s, r, width, light)?;
        let part = &s[r..e];
        put_interval(table, k, owner, base + r, part, a as u32, b as u32, months);
        last = b;
        p = e;
    }
    Ok((first + count, p))
}

// Row n of the table for an interval of these dates, of the mapping in row `owner`, where the table has row n: only then are the
// numbers of its days counted.
fn put_interval(
    table: &mut [u32],
    n: usize,
    owner: usize,
    start: usize,
    symbol: &[u8],
    from: u32,
    to: u32,
    months: &mut [u64; 64],
)
    requires start_bound { (start < 2 ^ 32) × (length symbol.now < 65536) × (owner < 2 ^ 32) }
    requires right { Right months.old }
    ensures { Put (put_columns 6) table.old n (row6 4 start (trimmed_len symbol.now) (day_of from) (day_of to) owner) table.new × Right months.new }
{
    if n < table.len() / 6 {
        let x = dates::day_number_in(months, from);
        let y = dates::day_number_in(months, to);
        put_symbol(table, n, 4, start, symbol, x, y, owner);
    }
}

// The symbol of an interval.
fn interval_name(s: &[u8], at: usize, width: usize, light: bool) -> Result<(usize, usize), Refusal>
    requires { at ≤ length s.now }
    ensures { (result ≡ symbol_at light width 37 40 43 s.now at) × Past (length s.now + 1) width s.now at result }
{
    symbol_at(
        s,
        at,
        width,
        light,
        INTERVAL_COUNT_LARGE,
        SYMBOL_NOT_UTF8,
        SYMBOL_AFTER_NUL,
    )
}

// The date at `at`; `why` at `at` where there is none. Where `light` holds, any number is one; so is `last`, a date before it.
fn date_at(
    s: &[u8],
    at: usize,
    light: bool,
    why: u32,
    months: &mut [u64; 64],
    last: usize,
) -> Result<(usize, usize), Refusal>
    requires right { Right months.old }
    requires last_passed { lax light is_date last ≡ true }
    ensures { (result ≡ date_at light why s.now at) × Past 4294967296 4 s.now at result × Right months.new }
{
    let (value, next) = numbers::u32_at(s, at, why)?;
    if light || value == last || dates::is_date_in(months, value as u32) {
        return Ok((value, next));
    }
    Err(Refusal {
        number: why,
        place: at,
    })
}
