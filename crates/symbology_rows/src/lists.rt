// Symbols and lists of symbols.
ghost use Rattle.std.specs.Prelude.{◌≡◌, ◌+◌, ◌*◌, ◌/◌, ◌≤◌, ◌<◌, ◌^◌, length};
ghost use Rattle.codec.specs.Lenient.{lax};
ghost use Rattle.padded.specs.Padded.{each_padded};
ghost use Rattle.text.specs.Trim.{trimmed_len};
ghost use Rattle.numbers.specs.Numbers.{Past};
ghost use Rattle.table.specs.Table.{put_columns, Put, Room, Ran};
ghost use Rattle.symbology_rows.specs.Reader.{symbol_at, symbols_at, list_at, can_be};
ghost use Rattle.symbology_format.specs.SymbologyRows.{row6};

use padded::Fault;
use refusal::Refusal;

// Whether `count` items of at least `least` bytes can be in `room` bytes.
pub(crate) fn can_be(count: usize, room: usize, least: usize) -> bool
    ensures { result ≡ can_be count room least }
{
    if least == 0 {
        return count <= 0;
    }
    count <= room / least
}

// A symbol: where it starts and the place after its width; at `at`, `why` where it is cut short, `not` where it is no UTF-8 and
// `after` where another byte follows a NUL, which are not looked at where `light` holds.
pub(crate) fn symbol_at(
    s: &[u8],
    at: usize,
    width: usize,
    light: bool,
    why: u32,
    not: u32,
    after: u32,
) -> Result<(usize, usize), Refusal>
    requires { at ≤ length s.now }
    ensures { (result ≡ symbol_at light width why not after s.now at) × Past (length s.now + 1) width s.now at result }
{
    if width > numbers::left(s, at) {
        return Err(Refusal {
            number: why,
            place: at,
        });
    }
    let e = at + width;
    let part = &s[at..e];
    if light || padded::is_padded_ascii(part) {
        return Ok((at, e));
    }
    let fault = match padded::check_padded(part) {
        Ok(()) => return Ok((at, e)),
        Err(Fault::NotUtf8) => not,
        Err(Fault::AfterNul) => after,
    };
    Err(Refusal {
        number: fault,
        place: at,
    })
}

// Row n of the table for a symbol, where the table has it: only then are the NULs at the symbol's end looked for. The last number of
// the row is `owner`.
pub(crate) fn put_symbol(
    table: &mut [u32],
    n: usize,
    kind: u32,
    start: usize,
    symbol: &[u8],
    x: u32,
    y: u32,
    owner: usize,
)
    requires { (start < 2 ^ 32) × (length symbol.now < 65536) × (owner < 2 ^ 32) }
    ensures { Put (put_columns 6) table.old n (row6 kind start (trimmed_len symbol.now) x y owner) table.new }
{
    if n < table.len() / 6 {
        let len = text::trimmed_len(symbol);
        table::put_six(table, n, kind, start as u32, len as u32, x, y, owner as u32);
    }
}

// The symbols of a list, whose kind is 0, 1 or 2, in the rows from n on. Each row is its own owner.
fn symbols(
    s: &[u8],
    at: usize,
    count: usize,
    kind: u32,
    width: usize,
    light: bool,
    base: usize,
    table: &mut [u32],
    n: usize,
) -> Result<(usize, usize), Refusal>
    requires room { Room base s.now at n }
    requires width_bound { (width < 65536) × (count ≤ 4294967296 * width) }
    ensures { Ran (put_columns 6) base s.now (symbols_at light width kind base n count s.now at) n table.old table.new result }
{
    let mut p = at;
    for k in n..n + count {
        let (_, next) = symbol_at(
            s,
            p,
            width,
            light,
            refusal::LIST_COUNT_LARGE,
            refusal::LIST_NOT_UTF8,
            refusal::LIST_AFTER_NUL,
        )?;
        let part = &s[p..next];
        put_symbol(table, k, kind, base + p, part, 0, 0, k);
        p = next;
    }
    Ok((n + count, p))
}

// Whether symbols of this width need no test: where `light` holds, and where all are below 128 and have only NULs after a NUL.
fn are_easy(symbols: &[u8], width: usize, light: bool) -> bool
    ensures { result ≡ lax light (each_padded width (length symbols.now / width)) symbols.now }
{
    light || padded::are_padded_ascii(symbols, width)
}

// A list: its count, and as many symbols. These are judged one by one only where a look at all of them does not settle it.
pub(crate) fn list(
    s: &[u8],
    at: usize,
    kind: u32,
    width: usize,
    light: bool,
    base: usize,
    table: &mut [u32],
    n: usize,
) -> Result<(usize, usize), Refusal>
    requires room { Room base s.now at n }
    requires width_bound { width < 65536 }
    ensures { Ran (put_columns 6) base s.now (list_at light width kind base n s.now at) n table.old table.new result }
{
    let (count, next) = numbers::u32_at(s, at, refusal::LIST_COUNT_MISSING)?;
    if !can_be(count, numbers::left(s, next), width) {
        let number = refusal::LIST_COUNT_LARGE;
        return Err(Refusal { number, place: at });
    }
    let easy = are_easy(&s[next..next + count * width], width, light);
    symbols(s, next, count, kind, width, easy, base, table, n)
}
