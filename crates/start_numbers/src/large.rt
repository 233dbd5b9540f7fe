// The numbers that small tables do not reach: 91, 92 and 94 of layout rows, and 13 of the block. Each table is an array in a frame of its own.
ghost use Rattle.std.specs.Prelude.{◌≡◌, length};

use crate::start::{Change, Field, Start};
use crate::{Cases, start};
use std::io;
use std::io::Write;

// A label def without a text and without labels.
const LABEL_DEF: [u32; 9] = [14, 0, 0, 0, 0, 0, 0, 0, 0];

// A label of 255 letters.
const LABEL: [u32; 9] = [15, 0, 255, 0, 0, 0, 0, 0, 0];

// 91
pub(crate) fn many_label_defs(cases: &mut Cases<impl Write>) -> io::Result<()> {
    let mut rows = rows_space();
    fill(&mut rows, &LABEL_DEF, &LABEL_DEF);
    layout(cases, "65536 label defs", &mut rows)
}

// 92
pub(crate) fn long_name(cases: &mut Cases<impl Write>) -> io::Result<()> {
    let mut rows = [14, 0, 256, 0, 0, 0, 0, 0, 0];
    layout(cases, "a layout name of 256 bytes", &mut rows)
}

// 94
pub(crate) fn long_section(cases: &mut Cases<impl Write>) -> io::Result<()> {
    let mut rows = section_space();
    fill(&mut rows, &[14, 0, 0, 254, 0, 0, 0, 0, 0], &LABEL);
    layout(cases, "254 labels of 255 bytes", &mut rows)
}

// 13: 65,537 listed symbols of 65,535 NULs are as many bytes as the length holds, and a header stands before them.
pub(crate) fn long_block(cases: &mut Cases<impl Write>) -> io::Result<()> {
    let mut table = columns_space();
    own(&mut table);
    let (mut rows, mut text) = (start::ROWS, *b"TEST");
    let mut start = Start::of(2, &mut table, &mut rows, &mut text);
    start.change(Change::Field(Field::Width, 65535));
    start.count = 65537;
    start.show(&mut cases.out, "65537 symbols of width 65535")
}

// Room for 65,536 layout rows.
fn rows_space() -> [u32; 589824]
    ensures { 589824 ≡ length result }
{
    [0; 589824]
}

// Room for 255 layout rows.
fn section_space() -> [u32; 2295]
    ensures { 2295 ≡ length result }
{
    [0; 2295]
}

// Room for the columns of 65,537 symbology rows.
fn columns_space() -> [u32; 393222]
    ensures { 393222 ≡ length result }
{
    [0; 393222]
}

// Puts a row, and after it rows of another kind.
fn fill(rows: &mut [u32], first: &[u32; 9], other: &[u32; 9]) {
    let (rows, _) = rows.as_chunks_mut::<9>();
    for (i, row) in rows.iter_mut().enumerate() {
        *row = if i == 0 { *first } else { *other };
    }
}

// Makes each of 65,537 listed symbols without letters its own owner, in the last column.
fn own(table: &mut [u32]) {
    for (owner, row) in table.iter_mut().skip(327685).zip(0u32..65537) {
        *owner = row;
    }
}

// Layout rows with a text of 256 letters, and no symbology rows.
fn layout(cases: &mut Cases<impl Write>, words: &str, rows: &mut [u32]) -> io::Result<()> {
    let mut text = [b'a'; 256];
    let mut start = Start::of(4, &mut [], rows, &mut text);
    start.count = 0;
    start.show(&mut cases.out, words)
}
