// A start that every version writes, and the changes that make others of it.
use std::io;
use std::io::Write;

// What the writer is given: of the layout rows the first `layout` numbers, and `room` bytes of output, 512 at the most. The tables and the
// text are lent, so that no heap is needed.
#[derive(Drop)]
pub(crate) struct Start<'a> {
    pub(crate) version: u8,
    pub(crate) fields: [u64; 16],
    pub(crate) table: &'a mut [u32],
    pub(crate) count: usize,
    pub(crate) rows: &'a mut [u32],
    pub(crate) layout: usize,
    pub(crate) text: &'a mut [u8],
    pub(crate) room: usize,
    pub(crate) sheet: [u16; 520],
}

// A number to be put at a place: a field, number `column` of a row, or a byte of the text; or one of three sizes, as `Start` has them.
#[derive(Clone, Copy)]
pub(crate) enum Change {
    Field(Field, u64),
    Cell { row: u8, column: u8, x: u32 },
    Row { row: u8, column: u8, x: u32 },
    Byte(usize, u8),
    Count(usize),
    Layout(usize),
    Room(usize),
}

// The fields that are changed, each by its place.
#[derive(Clone, Copy)]
pub(crate) enum Field {
    DatasetLen = 0,
    Schema = 1,
    End = 3,
    Limit = 4,
    StypeIn = 5,
    StypeOut = 6,
    TsOut = 7,
    Width = 8,
    LayoutVersion = 9,
    Present = 12,
    DatasetStart = 13,
}

// Number `column` of symbology row `row` is x.
pub(crate) fn cell(row: u8, column: u8, x: u32) -> Change {
    Change::Cell { row, column, x }
}

// Number `column` of layout row `row` is x.
pub(crate) fn row(row: u8, column: u8, x: u32) -> Change {
    Change::Row { row, column, x }
}

// The fields: what may be absent is present, and the dataset starts the text.
pub(crate) fn good_fields(version: u8) -> [u64; 16] {
    let width = if version == 1 { 22 } else { 6 };
    let layout_version = if version == 4 { 1 } else { 0 };
    [
        4, // dataset length
        1, // schema
        100, // start
        200, // end
        10, // limit
        1, // stype_in
        2, // stype_out
        1, // ts_out
        width,
        layout_version,
        0,
        0,
        15, // present
        0, // dataset start
        0,
        0,
    ]
}

// ES, NQ, CL in the lists; ESU mapped to ESH4 from the first day of year 1 to the last of year 9999. By column.
pub(crate) const TABLE: [u32; 30] = [
    0, 1, 2, 3, 4, // kinds
    4, 6, 8, 10, 13, // starts
    2, 2, 2, 3, 4, // lengths
    0, 0, 0, 1, 366, // x
    0, 0, 0, 0, 3652424, // y
    0, 1, 2, 3, 3, // owners
];

// A record `trade` with the field `size`, and the label def `side` with `buy` and `sell`.
pub(crate) const ROWS: [u32; 54] = [
    10, 17, 5, 1, 2, 8, 1, 3, 4, // record
    11, 7, 0, 8, 1, 0, 0, 0, 0, // field
    12, 22, 4, 0, 0, 0, 0, 0, 0, // name
    14, 26, 4, 2, 0, 0, 0, 0, 0, // label def
    15, 30, 3, 66, 0, 0, 0, 0, 0, // label
    15, 33, 4, 83, 0, 0, 0, 0, 0, // label
];

// The text of all of them, and two dots more.
pub(crate) const TEXT: [u8; 39] = *b"TESTESNQCLESUESH4tradesizesidebuysell..";

impl<'a> Start<'a> {
    // A start with the good fields of a version; all of the layout rows are for version 4 alone.
    pub(crate) fn of(
        version: u8,
        table: &'a mut [u32],
        rows: &'a mut [u32],
        text: &'a mut [u8],
    ) -> Start<'a> {
        let layout = if version == 4 { rows.len() } else { 0 };
        Start {
            version,
            fields: good_fields(version),
            table,
            count: 5,
            rows,
            layout,
            text,
            room: 512,
            sheet: [0; 520],
        }
    }

    // Makes a change; none where there is no such place.
    pub(crate) fn change(&mut self, change: Change) {
        match change {
            Change::Field(field, x) => self.fields[field as usize] = x,
            Change::Cell { row, column, x } => put(self.table, place(5, column, row), x),
            Change::Row { row, column, x } => put(self.rows, place(9, row, column), x),
            Change::Byte(at, x) => put(self.text, at, x),
            Change::Count(n) => self.count = n,
            Change::Layout(n) => self.layout = n,
            Change::Room(n) => self.room = n,
        }
    }

    // Hands the start to the writer, and says under these words what came of it: the number, or the length and the bytes.
    pub(crate) fn show(&self, out: &mut impl Write, words: &str) -> io::Result<()> {
        let mut block = [7u8; 512];
        let room = &mut block[..self.room.min(512)];
        let rows = self.rows.get(..self.layout).unwrap_or(self.rows);
        write!(out, "{words}: ")?;
        match block_writer::write_block(
            self.version,
            &self.fields,
            self.table,
            self.count,
            rows,
            self.text,
            &self.sheet,
            room,
        ) {
            Ok(len) => {
                write!(out, "{len} bytes ")?;
                for x in room.iter().take(len) {
                    write!(out, "{x:02x}")?;
                }
            }
            Err(why) => write!(out, "{}", why.number)?,
        }
        out.write_all(b"\n")
    }
}

// The place of number `second` of part `first`, where each part has `width` numbers.
fn place(width: u8, first: u8, second: u8) -> usize {
    usize::from(width) * usize::from(first) + usize::from(second)
}

// Puts a number at a place, where there is one.
fn put<T: Copy + Drop>(numbers: &mut [T], at: usize, x: T) {
    if let Some(place) = numbers.get_mut(at) {
        *place = x;
    }
}
