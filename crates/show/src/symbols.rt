// The symbology's rows: the lists, then each mapping with its intervals.
use crate::values;
use crate::values::Day;
use std::io::Write;
use std::{fmt, io};

// What a row is about.
#[derive(Clone, Copy)]
enum Kind {
    Symbol,
    Partial,
    NotFound,
    Mapping,
    Interval,
}

// A number that no row has for its kind.
#[derive(Clone, Copy, Debug)]
struct UnknownKind(u32);

impl TryFrom<u32> for Kind {
    type Error = UnknownKind;

    fn try_from(number: u32) -> Result<Self, UnknownKind> {
        match number {
            0 => Ok(Kind::Symbol),
            1 => Ok(Kind::Partial),
            2 => Ok(Kind::NotFound),
            3 => Ok(Kind::Mapping),
            4 => Ok(Kind::Interval),
            _ => Err(UnknownKind(number)),
        }
    }
}

// How a row's line begins; that of an interval has its dates instead.
impl fmt::Display for Kind {
    fn fmt<W: fmt::Write>(&self, f: &mut fmt::Formatter<W>) -> fmt::Result {
        f.write_str(match self {
            Kind::Symbol => "symbol: ",
            Kind::Partial => "partial: ",
            Kind::NotFound => "not found: ",
            Kind::Mapping => "mapping: ",
            Kind::Interval => "  ",
        })
    }
}

// A line for each of the first n rows.
pub(crate) fn show(out: &mut impl Write, block: &[u8], rows: &[u32], n: usize) -> io::Result<()> {
    // The rows stand by column, so each is taken by its number.
    for i in 0..n {
        if let Ok(kind) = Kind::try_from(table::number_at(rows, i, 0)) {
            write!(out, "{kind}")?;
            if let Kind::Interval = kind {
                let start = Day(table::number_at(rows, i, 3));
                let end = Day(table::number_at(rows, i, 4));
                write!(out, "{start} to {end}: ")?;
            }
        }
        values::name(out, names::symbology_name(block, rows, i))?;
    }
    Ok(())
}
