// The layout's rows: records and structs with their fields, label defs with their labels.
use crate::codes::{Code, Schema};
use crate::values;
use crate::values::OrNone;
use command_line::escape;
use std::io;
use std::io::Write;

// The layout starts after the fixed part of the block and its own length: 100 + 4.
const LAYOUT_AT: usize = 104;

// The def index of a field that has none.
const NO_DEF: u32 = 65535;

// What a row is about.
#[derive(Clone, Copy)]
enum Kind {
    Record,
    Field,
    FieldName,
    Struct,
    LabelDef,
    Label,
}

// A number that no row has for its kind.
#[derive(Clone, Copy, Debug)]
struct UnknownKind(u32);

impl TryFrom<u32> for Kind {
    type Error = UnknownKind;

    fn try_from(number: u32) -> Result<Self, UnknownKind> {
        match number {
            10 => Ok(Kind::Record),
            11 => Ok(Kind::Field),
            12 => Ok(Kind::FieldName),
            13 => Ok(Kind::Struct),
            14 => Ok(Kind::LabelDef),
            15 => Ok(Kind::Label),
            _ => Err(UnknownKind(number)),
        }
    }
}

// A line for each of the first n rows; a field's name is its own row, as many rows on as its owner has fields.
pub(crate) fn show(out: &mut impl Write, block: &[u8], table: &[u32], n: usize) -> io::Result<()> {
    if block.len() < LAYOUT_AT {
        return Ok(());
    }
    let layout = &block[LAYOUT_AT..];
    let (rows, _) = table.as_chunks::<9>();
    let mut fields = 0;
    for (i, row) in rows.iter().take(n).enumerate() {
        let name = names::layout_name(layout, table, i);
        match Kind::try_from(row[0]) {
            Ok(Kind::Record) => fields = record(out, name, row)?,
            Ok(Kind::Struct) => fields = structure(out, name, row)?,
            Ok(Kind::Field) => {
                let name = names::layout_name(layout, table, i.saturating_add(fields));
                field(out, name, row)?;
            }
            Ok(Kind::LabelDef) => line(out, b"label def: ", name)?,
            Ok(Kind::Label) => label(out, name, row)?,
            Ok(Kind::FieldName) | Err(_) => {}
        }
    }
    Ok(())
}

// What it is, and its name.
fn line(out: &mut impl Write, what: &[u8], name: &[u8]) -> io::Result<()> {
    out.write_all(what)?;
    values::name(out, name)
}

// A record's numbers and hash; answers its field count.
fn record(out: &mut impl Write, name: &[u8], row: &[u32; 9]) -> io::Result<usize> {
    let [_, _, _, rtype, schema, base_size, fields, low, high] = *row;
    line(out, b"record: ", name)?;
    writeln!(out, "  rtype: {rtype}")?;
    writeln!(out, "  schema: {}", Code::<Schema>::from(u64::from(schema)))?;
    writeln!(out, "  base size: {base_size}")?;
    writeln!(out, "  hash: {high:08x}{low:08x}")?;
    Ok(fields as usize)
}

// A struct's size; answers its field count.
fn structure(out: &mut impl Write, name: &[u8], row: &[u32; 9]) -> io::Result<usize> {
    let [_, _, _, size, fields, ..] = *row;
    line(out, b"struct: ", name)?;
    writeln!(out, "  size: {size}")?;
    Ok(fields as usize)
}

// A field's numbers; a scale is a signed byte.
fn field(out: &mut impl Write, name: &[u8], row: &[u32; 9]) -> io::Result<()> {
    let [_, id, offset, size, of_type, flags, def, scale, _] = *row;
    let def = OrNone((def != NO_DEF).then_some(def));
    let scale = signed(scale);
    out.write_all(b"  field ")?;
    escape::escaped(out, name)?;
    write!(
        out,
        ": id {id}, offset {offset}, size {size}, type {of_type}"
    )?;
    writeln!(out, ", flags {flags}, def {def}, scale {scale}")
}

// A byte as the signed number that it stands for.
fn signed(byte: u32) -> i64 {
    let number = i64::from(byte);
    if number < 128 { number } else { number - 256 }
}

fn label(out: &mut impl Write, name: &[u8], row: &[u32; 9]) -> io::Result<()> {
    write!(out, "  {}: ", row[3])?;
    values::name(out, name)
}
