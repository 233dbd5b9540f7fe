// What the answers are written with.
use block::Fields;
use refusal::Refusal;
use std::io::Write;
use std::{array, fmt, io};

// The most rows that are written.
const MOST_ROWS: usize = 100;

// A refusal's number, and its place where it has one; 0 where nothing is refused.
#[derive(Clone, Copy)]
pub(crate) struct Told(pub(crate) Option<Refusal>);

impl fmt::Display for Told {
    fn fmt<W: fmt::Write>(&self, f: &mut fmt::Formatter<W>) -> fmt::Result {
        match self.0 {
            None => f.write_str("0"),
            Some(Refusal { number, place }) => {
                write!(f, "{number}")?;
                if refusal::has_place(number) {
                    write!(f, " at {place}")?;
                }
                Ok(())
            }
        }
    }
}

// A text and the line's end.
pub(crate) fn line(out: &mut impl Write, s: &[u8]) -> io::Result<()> {
    out.write_all(s)?;
    out.write_all(b"\n")
}

// A refusal.
pub(crate) fn refused(out: &mut impl Write, why: Refusal) -> io::Result<()> {
    writeln!(out, "refused {}", Told(Some(why)))
}

// Bytes in hexadecimal.
pub(crate) fn hex(out: &mut impl Write, s: &[u8]) -> io::Result<()> {
    for x in s {
        write!(out, "{x:02x}")?;
    }
    Ok(())
}

// A value; - where it is absent.
#[derive(Clone, Copy)]
struct OrDash(Option<u64>);

impl fmt::Display for OrDash {
    fn fmt<W: fmt::Write>(&self, f: &mut fmt::Formatter<W>) -> fmt::Result {
        match self.0 {
            Some(value) => write!(f, "{value}"),
            None => f.write_str("-"),
        }
    }
}

// The fields of an accepted block, on two lines; - for what is absent.
pub(crate) fn fields(out: &mut impl Write, fields: Fields) -> io::Result<()> {
    let schema = OrDash(fields.schema);
    let end = OrDash(fields.end);
    let limit = OrDash(fields.limit);
    write!(out, "read: dataset {} schema {schema}", fields.dataset_len)?;
    write!(out, " start {} end {end} limit {limit}", fields.start)?;
    types(out, fields)?;
    write!(out, "  width {}", fields.symbol_cstr_len)?;
    write!(out, " layout version {}", fields.layout_version)?;
    write!(out, " symbology rows {}", fields.symbology_rows)?;
    writeln!(out, " layout rows {}", fields.layout_rows)
}

fn types(out: &mut impl Write, fields: Fields) -> io::Result<()> {
    let stype_in = OrDash(fields.stype_in);
    write!(out, " stype_in {stype_in} stype_out {}", fields.stype_out)?;
    if fields.ts_out {
        out.write_all(b" ts_out")?;
    }
    out.write_all(b"\n")
}

// Each of the first n symbology rows, which stand by column, with its name in the block, 100 at the most.
pub(crate) fn symbology_rows(
    out: &mut impl Write,
    block: &[u8],
    table: &[u32],
    n: usize,
) -> io::Result<()> {
    // The rows stand by column, so each is taken by its number.
    for i in 0..n.min(MOST_ROWS) {
        let numbers: [u32; 6] = array::from_fn(|column| table::number_at(table, i, column));
        row(out, &numbers, names::symbology_name(block, table, i))?;
    }
    Ok(())
}

// Each of the first n layout rows, with its name in the layout, 100 at the most.
pub(crate) fn layout_rows(
    out: &mut impl Write,
    layout: &[u8],
    table: &[u32],
    n: usize,
) -> io::Result<()> {
    let (rows, _) = table.as_chunks::<9>();
    for (i, numbers) in rows.iter().take(n.min(MOST_ROWS)).enumerate() {
        row(out, numbers, names::layout_name(layout, table, i))?;
    }
    Ok(())
}

// The numbers of a row, and its name after a colon.
fn row(out: &mut impl Write, numbers: &[u32], name: &[u8]) -> io::Result<()> {
    out.write_all(b" ")?;
    for x in numbers {
        write!(out, " {x}")?;
    }
    out.write_all(b" : ")?;
    line(out, name)
}
