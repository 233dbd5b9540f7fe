// Labels whose codes differ.
ghost use Rattle.std.specs.Prelude.{◌≡◌, [], ◌<◌};
ghost use Rattle.marks.specs.Marks.{Marks};
ghost use Rattle.table.specs.Table.{put_row, Room, Ran};
ghost use Rattle.layout.specs.Reader.{labels_at};
ghost use Rattle.layout.specs.Labels.{Cleared, Codes};

use super::rows;
use refusal::Refusal;

// Labels whose codes x differ. A code is marked when its label is read; at the end no mark is left.
pub(crate) fn labels(
    s: &[u8],
    at: usize,
    count: usize,
    light: bool,
    base: usize,
    table: &mut [u32],
    n: usize,
    marks: &mut [u64; 1024],
) -> Result<(usize, usize), Refusal>
    requires { Room base s.now at n × Marks marks.old [] }
    ensures ran { Ran (put_row 9) base s.now (labels_at light base [] count s.now at) n table.old table.new result }
    ensures cleared { Cleared result marks.new }
{
    let mut p = at;
    let mut k = n;
    for _ in 0..count {
        let (code, q) = numbers::u16_at(s, p, refusal::LAYOUT_TRUNCATED)?;
        let (len, next) = wire::name_in(s, q, light)?;
        if marks::is_marked(marks, code as u16) {
            return refusal::refuse(refusal::LABEL_TWICE, p);
        }
        marks::mark(marks, code as u16);
        let row = rows::label_row(base + (q + 1), len, code);
        table::put_row(table, k, &row);
        k += 1;
        p = next;
    }
    unmark(s, at, count, marks);
    Ok((k, p))
}

// Clears the marks of the codes of `count` labels from `at` on.
fn unmark(s: &[u8], at: usize, count: usize, marks: &mut [u64; 1024])
    requires { Codes s.now count at marks.old }
    ensures { Marks marks.new [] }
{
    let mut p = at;
    for _ in 0..count {
        let code = rows::half(s, p) as u16;
        let len = numbers::wide(s[p + 2]);
        marks::wipe(marks, code);
        p = p + 4 + len;
    }
}
