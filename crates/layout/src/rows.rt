// A row of nine numbers for each kind.
ghost use Rattle.std.specs.Prelude.{◌≡◌, ◌+◌, ◌*◌, ◌≤◌, ◌<◌, ◌^◌, length};
ghost use Rattle.numbers.specs.Numbers.{le16, le32, le64};
ghost use Rattle.layout.specs.Rows.{head_row, row10, row12, row13, row14, row15};

pub(crate) fn record_row(s: &[u8], start: usize, len: usize, count: usize) -> [u32; 9]
    requires { (14 ≤ length s.now) × (start < 2 ^ 32) × (len < 256) × (count < 65536) }
    ensures { result ≡ row10 start len (le16 s.now 0) (le16 s.now 2) (le16 s.now 4) count (le64 s.now 6) }
{
    [
        10,
        start as u32,
        len as u32,
        half(s, 0),
        half(s, 2),
        half(s, 4),
        count as u32,
        word(s, 6),
        word(s, 10),
    ]
}

pub(crate) fn entry_row(b: [u8; 11]) -> [u32; 9]
    ensures { result ≡ head_row b }
{
    [
        11,
        pair(b[0], b[1]),
        pair(b[2], b[3]),
        pair(b[4], b[5]),
        wide32(b[6]),
        wide32(b[7]),
        pair(b[8], b[9]),
        wide32(b[10]),
        0,
    ]
}

pub(crate) fn name_row(start: usize, len: usize) -> [u32; 9]
    requires { (start < 2 ^ 32) × (len < 256) }
    ensures { result ≡ row12 start len }
{
    [12, start as u32, len as u32, 0, 0, 0, 0, 0, 0]
}

pub(crate) fn struct_row(start: usize, len: usize, size: usize, count: usize) -> [u32; 9]
    requires { (start < 2 ^ 32) × (len < 256) × (size < 65536) × (count < 65536) }
    ensures { result ≡ row13 start len size count }
{
    [
        13,
        start as u32,
        len as u32,
        size as u32,
        count as u32,
        0,
        0,
        0,
        0,
    ]
}

pub(crate) fn label_def_row(start: usize, len: usize, count: usize) -> [u32; 9]
    requires { (start < 2 ^ 32) × (len < 256) × (count < 65536) }
    ensures { result ≡ row14 start len count }
{
    [14, start as u32, len as u32, count as u32, 0, 0, 0, 0, 0]
}

pub(crate) fn label_row(start: usize, len: usize, code: usize) -> [u32; 9]
    requires { (start < 2 ^ 32) × (len < 256) × (code < 65536) }
    ensures { result ≡ row15 start len code }
{
    [15, start as u32, len as u32, code as u32, 0, 0, 0, 0, 0]
}

pub(crate) fn half(s: &[u8], at: usize) -> u32
    requires { at + 2 ≤ length s.now }
    ensures { (result ≡ le16 s.now at) × (result < 65536) }
{
    wide32(s[at]) + 256 * wide32(s[at + 1])
}

fn word(s: &[u8], at: usize) -> u32
    requires { at + 4 ≤ length s.now }
    ensures { (result ≡ le32 s.now at) × (result < 2 ^ 32) }
{
    half(s, at) + 65536 * half(s, at + 2)
}

fn pair(lo: u8, hi: u8) -> u32
    ensures { result ≡ lo + 256 * hi }
{
    wide32(lo) + 256 * wide32(hi)
}

fn wide32(x: u8) -> u32
    ensures { (result ≡ x) × (result < 256) }
{
    x as u32
}
