// What the writer answers, and whether what it writes reads back as the same.
use crate::readers::LayoutCase;
use crate::{bytes, readers, rows, show};
use layout::{Accepted, ReadError};
use std::alloc::Global;
use std::io;
use std::io::Write;

// A layout of a case, read, written and read again.
pub(crate) fn again(out: &mut impl Write, alloc: Global, layout: LayoutCase) -> io::Result<()> {
    let mut table = rows::space(alloc)?;
    match layout::read_layout_rows(layout.bytes, false, &mut table) {
        Ok(Accepted { version, rows: n }) => {
            let version = (version % 65536) as u16;
            write(out, rows::front(&table, n), layout, version, &mut [7; 4096])
        }
        Err(ReadError::Short(needed)) => writeln!(out, "short {}", needed.rows),
        Err(ReadError::Refused(why)) => show::refused(out, why),
    }
}

// The rows of a case: written and read again; then what the rules say of them, by search and marked.
pub(crate) fn rows(
    out: &mut impl Write,
    alloc: Global,
    s: &[u8],
    sheet: &[u16; 520],
) -> io::Result<()> {
    let version = bytes::u16_at(s, 2);
    let room = usize::from(bytes::u16_at(s, 4)).min(4096);
    let more = usize::from(bytes::u16_at(s, 6));
    let texts = usize::from(bytes::u16_at(s, 8));
    let numbers = bytes::from(s, 10 + texts);
    let rows = rows::load(alloc, numbers, numbers.len() / 36 + more)?;
    let texts = LayoutCase {
        width: bytes::u16_at(s, 0),
        sheet,
        bytes: bytes::front(bytes::from(s, 10), texts),
    };
    write(out, &rows, texts, version, &mut [7; 4096][..room])?;
    out.write_all(b"  rules")?;
    readers::rules_of_rows(out, &rows, texts)
}

// Writes rows whose texts are in `texts`, and says what came of it. The room for them is full of sevens.
fn write(
    out: &mut impl Write,
    rows: &[u32],
    texts: LayoutCase,
    version: u16,
    room: &mut [u8],
) -> io::Result<()> {
    match writer::write_layout(rows, texts.bytes, version, texts.width, texts.sheet, room) {
        Ok(n) => {
            let bytes = bytes::front(room, n);
            let is_same = reads_back(rows, texts.bytes, version, bytes);
            out.write_all(b"written ")?;
            show::hex(out, bytes)?;
            writeln!(out, " {}", if is_same { "same" } else { "different" })
        }
        Err(why) => {
            let is_untouched = room.iter().all(|x| *x == 7);
            let written = if is_untouched { "no byte" } else { "bytes" };
            writeln!(out, "refused {}, {written} written", show::Told(Some(why)))
        }
    }
}

// Whether what was written is read back with this version and these rows.
fn reads_back(rows: &[u32], text: &[u8], version: u16, bytes: &[u8]) -> bool {
    let mut table = [0u32; 4608];
    match layout::read_layout_rows(bytes, false, &mut table) {
        Ok(read) => {
            read.version == usize::from(version)
                && read.rows == rows.len() / 9
                && rows::same(rows, text, rows::front(&table, read.rows), bytes)
        }
        Err(_) => false,
    }
}
