// A block's own fields.
use crate::codes::{Code, Schema, Stype};
use crate::sheet::Origin;
use crate::values;
use crate::values::{OrNone, Time};
use block::Fields;
use std::io;
use std::io::Write;

// Dataset, schema, times and the rest, a line each; in version 4 also which type sheet the layout was judged with.
pub(crate) fn show(
    out: &mut impl Write,
    fields: Fields,
    version: u8,
    block: &[u8],
    origin: Origin,
) -> io::Result<()> {
    writeln!(out, "version: {version}")?;
    dataset(out, command_line::front(block, fields.dataset_len))?;
    request(out, fields)?;
    writeln!(
        out,
        "stype_out: {}",
        Code::<Stype>::from(u64::from(fields.stype_out))
    )?;
    writeln!(out, "ts_out: {}", if fields.ts_out { "yes" } else { "no" })?;
    writeln!(out, "symbol width: {}", fields.symbol_cstr_len)?;
    layout(out, fields, version, origin)?;
    writeln!(out, "symbology rows: {}", fields.symbology_rows)?;
    writeln!(out, "layout rows: {}", fields.layout_rows)
}

// The dataset, which stands first in the block.
fn dataset(out: &mut impl Write, name: &[u8]) -> io::Result<()> {
    out.write_all(b"dataset: ")?;
    values::name(out, name)
}

// What was asked for.
fn request(out: &mut impl Write, fields: Fields) -> io::Result<()> {
    let schema = fields.schema.map(Code::<Schema>::from);
    let end = fields.end.map(Time);
    let stype_in = fields.stype_in.map(Code::<Stype>::from);
    writeln!(out, "schema: {}", OrNone(schema))?;
    writeln!(out, "start: {}", Time(fields.start))?;
    writeln!(out, "end: {}", OrNone(end))?;
    writeln!(out, "limit: {}", OrNone(fields.limit))?;
    writeln!(out, "stype_in: {}", OrNone(stype_in))
}

// The layout's version and the type sheet; below version 4 there is no layout.
fn layout(out: &mut impl Write, fields: Fields, version: u8, origin: Origin) -> io::Result<()> {
    if version < 4 {
        return writeln!(out, "layout version: none");
    }
    writeln!(out, "layout version: {}", fields.layout_version)?;
    writeln!(out, "type sheet: {origin}")
}
