// One layout for each rule: a good one of a record, a struct and a label def, with up to three changes.
use crate::start::{Change, Start, row};
use crate::{Cases, start};
use std::io;
use std::io::Write;

// A record `trade` with the fields `size` and `side`, the struct `sell` with the field `buy`, and the label def `side` with `buy`.
const ROWS: [u32; 90] = [
    10, 17, 5, 8, 2, 8, 2, 3, 4, // record
    11, 1, 0, 4, 1, 0, 0, 0, 0, // field
    11, 2, 4, 4, 1, 0, 0, 0, 0, // field
    12, 22, 4, 0, 0, 0, 0, 0, 0, // name
    12, 26, 4, 0, 0, 0, 0, 0, 0, // name
    13, 33, 4, 8, 1, 0, 0, 0, 0, // struct
    11, 1, 0, 8, 1, 0, 0, 0, 0, // field
    12, 30, 3, 0, 0, 0, 0, 0, 0, // name
    14, 26, 4, 1, 0, 0, 0, 0, 0, // label def
    15, 30, 3, 66, 0, 0, 0, 0, 0, // label
];

// Type 1 has one byte and type 4 four; 10 is a struct, 11 a symbol, 12 a decimal, 13 padding. The bit of weight 64 marks an extension, 65535 is
// no label def, and a record has a header of 8 bytes.
fn sheet() -> [u16; 520] {
    let mut sheet = [0u16; 520];
    sheet[1] = 1;
    sheet[4] = 4;
    sheet[512] = 10;
    sheet[513] = 11;
    sheet[514] = 12;
    sheet[515] = 13;
    sheet[516] = 64;
    sheet[517] = 65535;
    sheet[518] = 8;
    sheet
}

impl<W: Write> Cases<W> {
    // The good layout of version 4 with these changes.
    fn show_rules(&mut self, words: &str, changes: &[Change]) -> io::Result<()> {
        let (mut table, mut rows, mut text) = (start::TABLE, ROWS, start::TEXT);
        let mut start = Start::of(4, &mut table, &mut rows, &mut text);
        start.sheet = sheet();
        self.show_changed(words, start, changes)
    }
}

// Accepted; 60 to 64
pub(crate) fn layouts(cases: &mut Cases<impl Write>) -> io::Result<()> {
    cases.show_rules("a record, a struct and a label def", &[])?;
    cases.show_rules(
        "a struct of 6 bytes with a type of 4",
        &[row(5, 3, 6), row(6, 4, 4)],
    )?;
    cases.show_rules(
        "rtype 8 twice",
        &[row(5, 0, 10), row(5, 5, 8), row(5, 6, 1)],
    )?;
    cases.show_rules("rtype 78", &[row(0, 3, 78)])?;
    cases.show_rules("a base below the header", &[row(0, 5, 0)])?;
    cases.show_rules("a base of 12", &[row(0, 5, 12)])
}

// 71 to 80
pub(crate) fn fields(cases: &mut Cases<impl Write>) -> io::Result<()> {
    cases.show_rules("an id twice", &[row(2, 1, 1)])?;
    cases.show_rules("a struct in a struct", &[row(6, 4, 10)])?;
    cases.show_rules(
        "a second struct that is not there",
        &[row(1, 4, 10), row(1, 6, 1)],
    )?;
    cases.show_rules("a type of 4 at byte 5", &[row(2, 2, 5), row(2, 4, 4)])?;
    cases.show_rules("a field of size 0", &[row(2, 3, 0)])?;
    cases.show_rules("a decimal of scale 0", &[row(2, 4, 12)])?;
    cases.show_rules("a symbol field of 4 bytes, width 6", &[row(2, 4, 11)])?;
    cases.show_rules("a field at byte 65535", &[row(2, 2, 65535)])?;
    cases.show_rules("a base field marked as an extension", &[row(2, 5, 64)])?;
    cases.show_rules("a field past the base", &[row(2, 3, 5)])
}

// 81 to 83
pub(crate) fn tilings(cases: &mut Cases<impl Write>) -> io::Result<()> {
    cases.show_rules("an overlap in the base", &[row(2, 2, 3)])?;
    cases.show_rules("a base of 8 with 7 filled", &[row(2, 3, 3)])?;
    cases.show_rules(
        "a gap before an extension",
        &[row(1, 3, 8), row(2, 2, 9), row(2, 5, 64)],
    )
}
