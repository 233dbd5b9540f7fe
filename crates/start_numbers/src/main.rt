// One small start of a stream for each number by which `write_block` refuses, and those that it writes: a line for each, with a few words
// and the number, or the length and the bytes. Each start is a good one with up to three changes.
// The reader's numbers about lengths, counts and dates have no case but for 31: the writer makes these itself. 13, 91 and 94 need large tables and come last.
#![tactic(auto)]

mod large;
mod rule_numbers;
mod start;

use start::{Change, Field, Start, cell, row};
use std::io;
use std::io::Write;

fn main(rt: HostRuntime) -> io::Result<()> {
    let cases = &mut Cases {
        out: io::writer(&rt),
    };
    written(cases)?;
    written_otherwise(cases)?;
    versions(cases)?;
    options(cases)?;
    numbers(cases)?;
    texts(cases)?;
    row_numbers(cases)?;
    rows_in_place(cases)?;
    wide(cases)?;
    layout_rows(cases)?;
    header(cases)?;
    layouts(cases)?;
    rule_numbers::layouts(cases)?;
    rule_numbers::fields(cases)?;
    rule_numbers::tilings(cases)?;
    lists(cases)?;
    mappings(cases)?;
    output(cases)?;
    order(cases)?;
    large::many_label_defs(cases)?;
    large::long_name(cases)?;
    large::long_section(cases)?;
    large::long_block(cases)
}

// Where the lines of the cases go.
#[derive(Drop)]
pub(crate) struct Cases<W> {
    out: W,
}

impl<W: Write> Cases<W> {
    // The good start of a version with these changes.
    fn show(&mut self, words: &str, version: u8, changes: &[Change]) -> io::Result<()> {
        let (mut table, mut rows, mut text) = (start::TABLE, start::ROWS, start::TEXT);
        self.show_changed(
            words,
            Start::of(version, &mut table, &mut rows, &mut text),
            changes,
        )
    }

    // A start with these changes.
    fn show_changed(&mut self, words: &str, start: Start, changes: &[Change]) -> io::Result<()> {
        let mut start = start;
        for change in changes {
            start.change(*change);
        }
        start.show(&mut self.out, words)
    }
}

// Accepted: the good start.
fn written(cases: &mut Cases<impl Write>) -> io::Result<()> {
    cases.show("version 1", 1, &[])?;
    cases.show("version 2", 2, &[])?;
    cases.show("version 3", 3, &[])?;
    cases.show("version 4", 4, &[])
}

// Accepted: less of it.
fn written_otherwise(cases: &mut Cases<impl Write>) -> io::Result<()> {
    cases.show(
        "no schema",
        2,
        &[
            Change::Field(Field::Present, 14),
            Change::Field(Field::Schema, 0),
        ],
    )?;
    cases.show(
        "no end",
        2,
        &[
            Change::Field(Field::Present, 13),
            Change::Field(Field::End, 0),
        ],
    )?;
    cases.show(
        "no limit",
        2,
        &[
            Change::Field(Field::Present, 11),
            Change::Field(Field::Limit, 0),
        ],
    )?;
    cases.show(
        "no stype_in",
        2,
        &[
            Change::Field(Field::Present, 7),
            Change::Field(Field::StypeIn, 0),
        ],
    )?;
    cases.show("no symbology rows", 2, &[Change::Count(0)])?;
    cases.show("no layout rows in version 4", 4, &[Change::Layout(0)])
}

// 11
fn versions(cases: &mut Cases<impl Write>) -> io::Result<()> {
    cases.show("version 0", 0, &[])?;
    cases.show("version 5", 5, &[])
}

// 110: what may be absent.
fn options(cases: &mut Cases<impl Write>) -> io::Result<()> {
    cases.show("presence bit 16", 2, &[Change::Field(Field::Present, 31)])?;
    cases.show(
        "a schema beside absent",
        2,
        &[Change::Field(Field::Present, 14)],
    )?;
    cases.show(
        "an end beside absent",
        2,
        &[Change::Field(Field::Present, 13)],
    )?;
    cases.show(
        "a limit beside absent",
        2,
        &[Change::Field(Field::Present, 11)],
    )?;
    cases.show(
        "a stype_in beside absent",
        2,
        &[Change::Field(Field::Present, 7)],
    )?;
    cases.show("schema 65535", 2, &[Change::Field(Field::Schema, 65535)])?;
    cases.show("end 0", 2, &[Change::Field(Field::End, 0)])?;
    cases.show(
        "end 2^64-1",
        2,
        &[Change::Field(Field::End, 18446744073709551615)],
    )?;
    cases.show("limit 0", 2, &[Change::Field(Field::Limit, 0)])?;
    cases.show("stype_in 255", 2, &[Change::Field(Field::StypeIn, 255)])
}

// 110: the other fields.
fn numbers(cases: &mut Cases<impl Write>) -> io::Result<()> {
    cases.show("stype_out 256", 2, &[Change::Field(Field::StypeOut, 256)])?;
    cases.show("ts_out 2", 2, &[Change::Field(Field::TsOut, 2)])?;
    cases.show("width 65536", 2, &[Change::Field(Field::Width, 65536)])?;
    cases.show(
        "a layout version in version 3",
        3,
        &[Change::Field(Field::LayoutVersion, 1)],
    )?;
    cases.show(
        "layout version 65536",
        4,
        &[Change::Field(Field::LayoutVersion, 65536)],
    )
}

// 110: texts.
fn texts(cases: &mut Cases<impl Write>) -> io::Result<()> {
    cases.show(
        "a dataset outside the text",
        2,
        &[Change::Field(Field::DatasetStart, 36)],
    )?;
    cases.show("a dataset that ends in a NUL", 2, &[Change::Byte(3, 0)])?;
    cases.show("a symbol outside the text", 2, &[cell(0, 1, 38)])?;
    cases.show("a symbol that ends in a NUL", 2, &[Change::Byte(5, 0)])
}

// 110: the numbers of a symbology row.
fn row_numbers(cases: &mut Cases<impl Write>) -> io::Result<()> {
    cases.show("a listed symbol with an x", 2, &[cell(0, 3, 1)])?;
    cases.show("a mapping with a y", 2, &[cell(3, 4, 1)])?;
    cases.show("start day 3652425", 2, &[cell(4, 3, 3652425)])?;
    cases.show("end day 3652425", 2, &[cell(4, 4, 3652425)])?;
    cases.show("a listed symbol of another row", 2, &[cell(1, 5, 0)])?;
    cases.show("an interval of another row", 2, &[cell(4, 5, 2)])
}

// 110: rows out of place.
fn rows_in_place(cases: &mut Cases<impl Write>) -> io::Result<()> {
    cases.show("kinds out of order", 2, &[cell(0, 0, 2)])?;
    cases.show("kind 5", 2, &[cell(2, 0, 5)])?;
    cases.show("an interval too few", 2, &[cell(3, 3, 2)])?;
    cases.show("an interval too many", 2, &[cell(3, 3, 0)])?;
    cases.show("a count above the height", 2, &[Change::Count(6)])
}

// 111
fn wide(cases: &mut Cases<impl Write>) -> io::Result<()> {
    cases.show(
        "a dataset of 17 bytes in version 3",
        3,
        &[Change::Field(Field::DatasetLen, 17)],
    )?;
    cases.show(
        "a dataset of 39 bytes in version 4",
        4,
        &[Change::Field(Field::DatasetLen, 39)],
    )?;
    cases.show(
        "a symbol of 4 bytes, width 3",
        2,
        &[Change::Field(Field::Width, 3)],
    )?;
    cases.show(
        "version 1 with width 21",
        1,
        &[Change::Field(Field::Width, 21)],
    )?;
    cases.show(
        "version 1 with width 65536",
        1,
        &[Change::Field(Field::Width, 65536)],
    )
}

// 90, 93 and 95; 91, 92 and 94 are large.
fn layout_rows(cases: &mut Cases<impl Write>) -> io::Result<()> {
    cases.show("layout rows not of nine", 4, &[Change::Layout(53)])?;
    cases.show("a layout row of kind 16", 4, &[row(3, 0, 16)])?;
    cases.show("a label too few", 4, &[row(3, 3, 3)])?;
    cases.show("a label outside the text", 4, &[row(5, 1, 36)])?;
    cases.show("a layout name that holds a NUL", 4, &[Change::Byte(18, 0)])?;
    cases.show("a layout name not in UTF-8", 4, &[Change::Byte(18, 255)])?;
    cases.show("labels not rising", 4, &[row(5, 3, 66)])
}

// 20, 29, 21, 22, 23
fn header(cases: &mut Cases<impl Write>) -> io::Result<()> {
    cases.show("a dataset not in UTF-8", 2, &[Change::Byte(0, 255)])?;
    cases.show(
        "a dataset with letters after a NUL",
        2,
        &[Change::Byte(1, 0)],
    )?;
    cases.show("schema 20", 2, &[Change::Field(Field::Schema, 20)])?;
    cases.show("stype_in 13", 2, &[Change::Field(Field::StypeIn, 13)])?;
    cases.show("stype_out 13", 2, &[Change::Field(Field::StypeOut, 13)])?;
    cases.show("stype_out 255", 2, &[Change::Field(Field::StypeOut, 255)])
}

// 25
fn layouts(cases: &mut Cases<impl Write>) -> io::Result<()> {
    cases.show("layout rows in version 3", 3, &[Change::Layout(54)])
}

// 31, 32, 41
fn lists(cases: &mut Cases<impl Write>) -> io::Result<()> {
    cases.show(
        "a listed symbol of width 0",
        2,
        &[
            Change::Field(Field::Width, 0),
            Change::Count(1),
            cell(0, 2, 0),
        ],
    )?;
    cases.show("a listed symbol not in UTF-8", 2, &[Change::Byte(4, 255)])?;
    cases.show(
        "a listed symbol with letters after a NUL",
        2,
        &[Change::Byte(4, 0)],
    )
}

// 36, 42, 40, 43
fn mappings(cases: &mut Cases<impl Write>) -> io::Result<()> {
    cases.show("a raw symbol not in UTF-8", 2, &[Change::Byte(10, 255)])?;
    cases.show(
        "a raw symbol with letters after a NUL",
        2,
        &[Change::Byte(10, 0)],
    )?;
    cases.show(
        "an interval's symbol not in UTF-8",
        2,
        &[Change::Byte(13, 255)],
    )?;
    cases.show(
        "an interval's symbol with letters after a NUL",
        2,
        &[Change::Byte(13, 0)],
    )
}

// 112
fn output(cases: &mut Cases<impl Write>) -> io::Result<()> {
    cases.show("room for all but a byte", 2, &[Change::Room(169)])?;
    cases.show("room for all", 2, &[Change::Room(170)])
}

// Two at once: the one that comes first in the writer's order is given.
fn order(cases: &mut Cases<impl Write>) -> io::Result<()> {
    cases.show(
        "110 and 111",
        2,
        &[
            Change::Field(Field::TsOut, 2),
            Change::Field(Field::Width, 3),
        ],
    )?;
    cases.show(
        "111 and 90",
        4,
        &[Change::Field(Field::Width, 3), Change::Layout(53)],
    )?;
    cases.show("90 and 20", 4, &[Change::Layout(53), Change::Byte(0, 255)])?;
    cases.show(
        "23 and 25",
        3,
        &[Change::Field(Field::StypeOut, 13), Change::Layout(54)],
    )?;
    cases.show("62 and 32", 4, &[row(0, 3, 78), Change::Byte(4, 255)])?;
    cases.show("20 and 112", 2, &[Change::Byte(0, 255), Change::Room(0)])
}
