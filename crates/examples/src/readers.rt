// What the readers of blocks, symbologies and layouts answer, and the rules.
ghost use Rattle.std.specs.Prelude.{◌≤◌};

use crate::show::Told;
use crate::{bytes, rows, show};
use block::Fields;
use layout::{Accepted, ReadError};
use refusal::Refusal;
use std::alloc::Global;
use std::io;
use std::io::Write;
use symbology::Section;

// A layout of a case, or the texts of its rows: the symbol width and the type sheet that it is judged with, and its bytes.
#[derive(Clone, Copy)]
pub(crate) struct LayoutCase<'a> {
    pub(crate) width: u16,
    pub(crate) sheet: &'a [u16; 520],
    pub(crate) bytes: &'a [u8],
}

impl<'a> LayoutCase<'a> {
    // The symbol width stands before the layout.
    pub(crate) fn of(s: &'a [u8], sheet: &'a [u16; 520]) -> LayoutCase<'a> {
        LayoutCase {
            width: bytes::u16_at(s, 0),
            sheet,
            bytes: bytes::from(s, 2),
        }
    }
}

// A block of a case: its fields and rows, the rows needed, or the refusal.
pub(crate) fn block(
    out: &mut impl Write,
    alloc: Global,
    s: &[u8],
    sheet: &[u16; 520],
) -> io::Result<()> {
    let version = bytes::byte(s, 0);
    let rows = usize::from(bytes::u16_at(s, 1)).min(512);
    let block = bytes::from(s, 3);
    let mut symbology = vec![in alloc; 0; 6 * rows]?;
    let mut layout = vec![in alloc; 0; 9 * rows]?;
    match block::read_block(version, block, sheet, &mut symbology, &mut layout) {
        Ok(fields) => accepted(out, fields, block, &symbology, &layout),
        Err(block::ReadError::Refused(why)) => show::refused(out, why),
        Err(block::ReadError::Short { symbology, layout }) => {
            writeln!(out, "refused 3, symbology rows needed {symbology}")?;
            writeln!(out, "  layout rows needed {layout}")
        }
    }
}

// The fields of an accepted block and its rows.
fn accepted(
    out: &mut impl Write,
    fields: Fields,
    block: &[u8],
    symbology: &[u32],
    layout: &[u32],
) -> io::Result<()> {
    show::fields(out, fields)?;
    show::symbology_rows(out, block, symbology, fields.symbology_rows)?;
    show::layout_rows(out, bytes::from(block, 104), layout, fields.layout_rows)
}

// A symbology of a case: the place after it, its count of rows and the rows; or the refusal.
pub(crate) fn symbology(out: &mut impl Write, s: &[u8]) -> io::Result<()> {
    let width = bytes::u16_at(s, 0);
    let base = usize::from(bytes::u16_at(s, 2));
    let mut table = [0u32; 3072];
    match symbology::read_section_rows(bytes::from(s, 4), base, width, false, true, &mut table) {
        Ok(Section::Read { rows, next }) => {
            writeln!(out, "read {next} {rows}")?;
            show::symbology_rows(out, &[], &table, rows)
        }
        Ok(Section::Counted(rows)) => writeln!(out, "short {rows}"),
        Err(why) => show::refused(out, why),
    }
}

// A layout of a case: its version and its count of rows, or the refusal; what the rules say, by each way to ask them; its rows.
pub(crate) fn layout(out: &mut impl Write, alloc: Global, layout: LayoutCase) -> io::Result<()> {
    let LayoutCase {
        width,
        sheet,
        bytes,
    } = layout;
    let mut table = rows::space(alloc)?;
    let given = given_layout::read_layout(bytes, width, sheet, &mut table);
    let n = read_rows(out, bytes, &mut table)?;
    let by_search = engines::check_layout(bytes, width, sheet);
    let marked = engines::check_layout_plain(bytes, width, sheet);
    write!(out, "  rules {}", Told(answer_refusal(given)))?;
    write!(out, " {}", Told(by_search.err()))?;
    write!(out, " {}", Told(marked.err()))?;
    rules_of_rows(out, rows::front(&table, n), layout)?;
    show::layout_rows(out, bytes, &table, n)
}

// Whether a layout of a case is tidy; else the refusal, or the first untidy thing.
pub(crate) fn tidy(out: &mut impl Write, layout: LayoutCase) -> io::Result<()> {
    match tidy::check_tidy(layout.bytes, layout.width, layout.sheet) {
        Ok(()) => writeln!(out, "tidy"),
        Err(why) => show::refused(out, why),
    }
}

// Reads the rows of a layout, says what came of it, and answers how many there are.
fn read_rows(out: &mut impl Write, layout: &[u8], table: &mut [u32]) -> io::Result<usize> {
    match layout::read_layout_rows(layout, false, table) {
        Ok(Accepted { version, rows }) => {
            writeln!(out, "read {version} {rows}")?;
            return Ok(rows);
        }
        Err(ReadError::Short(needed)) => writeln!(out, "short {}", needed.rows)?,
        Err(ReadError::Refused(why)) => show::refused(out, why)?,
    }
    Ok(0)
}

// What the rules say of rows whose texts are in the layout, by search and marked.
pub(crate) fn rules_of_rows(
    out: &mut impl Write,
    rows: &[u32],
    layout: LayoutCase,
) -> io::Result<()> {
    let LayoutCase {
        width,
        sheet,
        bytes,
    } = layout;
    let by_search = engines::check_rows(rows, bytes, width, sheet);
    let marked = engines::check_rows_plain(rows, bytes, width, sheet);
    let by_search = Told(by_search.err());
    let marked = Told(marked.err());
    writeln!(out, " {by_search} {marked}")
}

// The refusal of an answer, where it does not read.
fn answer_refusal(answer: Result<Accepted, ReadError>) -> Option<Refusal> {
    match answer {
        Ok(_) => None,
        Err(ReadError::Short(_)) => Some(Refusal {
            number: refusal::TABLE_SHORT,
            place: 0,
        }),
        Err(ReadError::Refused(why)) => Some(why),
    }
}

// Puts the labels of a case of many labels after its n bytes; how many bytes it has then.
pub(crate) fn with_labels(room: &mut [u8], n: usize) -> usize {
    let count = usize::from(bytes::u16_at(room, 0));
    if 4096 < n {
        return n;
    }
    let len = 4 * count + 4;
    // The case's own numbers are read from the room while labels are put there, so each byte is put by its place.
    for j in 0..len {
        bytes::put(room, n + j, label_byte(room, count, j));
    }
    n + len
}

// Byte j of so many labels without names, with codes 0, 1 and so on, and of the case's last label after them.
fn label_byte(s: &[u8], count: usize, j: usize) -> u8
    requires count_bound { count ≤ 65535 }
    requires j_bound { j ≤ 262144 }
{
    if 4 * count <= j {
        return bytes::byte(s, 2 + (j - 4 * count));
    }
    match j % 4 {
        0 => (j / 4 % 256) as u8,
        1 => (j / 1024 % 256) as u8,
        _ => 0,
    }
}
