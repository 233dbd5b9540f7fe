// A field entry's first eleven bytes, which travel as one array: from the wire, or from a field row.
#![tactic(auto)]

ghost use Rattle.std.specs.Prelude.{◌≡◌, [], ◌∷◌, ◌+◌, ◌-◌, ◌/◌, ◌%◌, ◌≤◌, length, get_or};
ghost use Rattle.entry.specs.Entry.{entry_bytes, cut_bytes, row_bytes};

// The first eleven bytes of the entry at `at`, 0 for each byte past the end.
pub fn entry_bytes(s: &[u8], at: usize) -> [u8; 11]
    ensures { result ≡ entry_bytes s.now at }
{
    if 11 <= numbers::left(s, at) {
        return eleven(s, at);
    }
    [
        byte(s, at, 0),
        byte(s, at, 1),
        byte(s, at, 2),
        byte(s, at, 3),
        byte(s, at, 4),
        byte(s, at, 5),
        byte(s, at, 6),
        byte(s, at, 7),
        byte(s, at, 8),
        byte(s, at, 9),
        byte(s, at, 10),
    ]
}

// Byte j from `at` on, 0 past the end.
fn byte(s: &[u8], at: usize, j: usize) -> u8
    ensures { result ≡ get_or s.now (at + j) 0 }
{
    if j < numbers::left(s, at) {
        s[at + j]
    } else {
        0
    }
}

// The first eleven bytes of the entry at `at`, which are there.
fn eleven(s: &[u8], at: usize) -> [u8; 11]
    requires { at + 11 ≤ length s.now }
    ensures { result ≡ entry_bytes s.now at }
{
    [
        s[at],
        s[at + 1],
        s[at + 2],
        s[at + 3],
        s[at + 4],
        s[at + 5],
        s[at + 6],
        s[at + 7],
        s[at + 8],
        s[at + 9],
        s[at + 10],
    ]
}

// The field row at `at` of a table as the first eleven bytes of an entry: each number modulo its width on the wire, 0 for
// each number past the end.
pub fn row_bytes(rows: &[u32], at: usize) -> [u8; 11]
    ensures { result ≡ row_bytes rows.now at }
{
    if 8 <= from(rows, at) {
        return cut(
            rows[at + 1],
            rows[at + 2],
            rows[at + 3],
            rows[at + 4],
            rows[at + 5],
            rows[at + 6],
            rows[at + 7],
        );
    }
    cut(
        number(rows, at, 1),
        number(rows, at, 2),
        number(rows, at, 3),
        number(rows, at, 4),
        number(rows, at, 5),
        number(rows, at, 6),
        number(rows, at, 7),
    )
}

// How many numbers there are from `at` on.
fn from(rows: &[u32], at: usize) -> usize
    ensures { result ≡ length rows.now - at }
{
    if at < rows.len() { rows.len() - at } else { 0 }
}

// Number j from `at` on, 0 past the end.
fn number(rows: &[u32], at: usize, j: usize) -> u32
    ensures { result ≡ get_or rows.now (at + j) 0 }
{
    if j < from(rows, at) { rows[at + j] } else { 0 }
}

// Id, offset, size, type, flags, def index and scale as bytes.
fn cut(id: u32, offset: u32, size: u32, ty: u32, flags: u32, def: u32, scale: u32) -> [u8; 11]
    ensures { result ≡ cut_bytes id offset size ty flags def scale }
{
    [
        low(id),
        low(id / 256),
        low(offset),
        low(offset / 256),
        low(size),
        low(size / 256),
        low(ty),
        low(flags),
        low(def),
        low(def / 256),
        low(scale),
    ]
}

fn low(x: u32) -> u8
    ensures { result ≡ x % 256 }
{
    (x % 256) as u8
}
