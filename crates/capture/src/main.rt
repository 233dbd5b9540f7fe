// The stand-in for a trader's capture, on standard input: one continuous symbol with four mapping intervals. It is fed in four pieces cut
// inside the intervals, and what came of it is written; then at every cut into two pieces, and the cuts that gave the same are counted.
// The type sheet is all zeros, which no block without a layout looks at.
#![tactic(auto)]

ghost use Rattle.std.specs.Prelude.{length, ◌≤◌};

use feed::{Answer, State};
use std::io::Write;
use std::{fmt, io};

fn main(rt: HostRuntime) -> io::Result<()> {
    let mut input = [0u8; 4096];
    let n = reading::read_full(&mut rt.reader(), &mut input)?;
    show_capture(&mut io::writer(&rt), &input[..n])
}

// Feeds the capture whole for the places of its intervals, then in four pieces, then at every cut.
fn show_capture(out: &mut impl Write, all: &[u8]) -> io::Result<()> {
    let whole = fed(&[all]);
    let first = whole.first_interval();
    let n = all.len();
    let a = whole.inside(first).min(n);
    let b = whole.inside(first + 1).clamp(a, n);
    let c = whole.inside(first + 2).clamp(b, n);
    let pieces = fed(&[&all[..a], &all[a..b], &all[b..c], &all[c..]]);
    writeln!(out, "four pieces, cut at {a}, {b} and {c}")?;
    show_rows(out, &pieces)?;
    let same = (0..n).filter(|cut| is_same(all, *cut, &pieces)).count();
    writeln!(out, "{same} of {n} cuts into two pieces gave the same")
}

// Whether the two pieces give these rows.
fn is_same(all: &[u8], cut: usize, expected: &Capture) -> bool
    requires { cut ≤ length all.now }
{
    let (first, second) = all.split_at(cut);
    let two = fed(&[first, second]);
    two.count == expected.count && two.rows == expected.rows
}

// What came of a stream so far: the held bytes, 64 rows by column, and how many rows the block has, once it is done.
#[derive(Clone, Copy)]
struct Capture {
    store: [u8; 4096],
    held: usize,
    rows: [u32; 384],
    count: usize,
}

// What comes of these pieces, one after the other.
fn fed(pieces: &[&[u8]]) -> Capture {
    let mut capture = Capture {
        store: [0; 4096],
        held: 0,
        rows: [0; 384],
        count: 0,
    };
    for piece in pieces {
        capture.feed(piece);
    }
    capture
}

impl Capture {
    fn feed(&mut self, piece: &[u8]) {
        let sheet = [0u16; 520];
        let mut layout = [0u32; 9];
        let start = State { held: self.held };
        let fed = feed::feed(
            start,
            &mut self.store,
            piece,
            &sheet,
            &mut self.rows,
            &mut layout,
        );
        let state = fed.state;
        self.held = state.held;
        self.count = match fed.answer {
            Ok(Answer::Done(fields)) => fields.symbology_rows,
            _ => 0,
        };
    }

    // What row i is; none past the rows, and for what is neither a mapping nor an interval.
    fn kind(&self, i: usize) -> Option<Kind> {
        Kind::try_from(table::number_at(&self.rows, i, 0)).ok()
    }

    // The first row of an interval, or the count of rows.
    fn first_interval(&self) -> usize
        ensures { result ≤ 64 }
    {
        (0..64)
            .position(|i| self.kind(i) == Some(Kind::Interval))
            .unwrap_or(64)
    }

    // The place in the stream of the second byte of row i's text.
    fn inside(&self, i: usize) -> usize {
        table::number_at(&self.rows, i, 1) as usize + 9
    }
}

// What a row is about, where it is shown.
#[derive(Clone, Copy, PartialEq, Eq)]
enum Kind {
    Mapping,
    Interval,
}

// The number of a row that is not shown.
#[derive(Clone, Copy, Debug)]
struct OtherKind(u32);

impl TryFrom<u32> for Kind {
    type Error = OtherKind;

    fn try_from(number: u32) -> Result<Self, OtherKind> {
        match number {
            3 => Ok(Kind::Mapping),
            4 => Ok(Kind::Interval),
            _ => Err(OtherKind(number)),
        }
    }
}

// A day by its number, as yyyy-mm-dd.
#[derive(Clone, Copy)]
struct Day(u32);

impl fmt::Display for Day {
    fn fmt<W: fmt::Write>(&self, f: &mut fmt::Formatter<W>) -> fmt::Result {
        let text = iso::day_text(self.0);
        // The text is ASCII.
        f.write_str(std::str::from_utf8(&text).unwrap_or(""))
    }
}

// Writes each mapping and its intervals; rows of the lists are passed over.
fn show_rows(out: &mut impl Write, capture: &Capture) -> io::Result<()> {
    let block = &capture.store[8..];
    let rows = &capture.rows;
    // The rows stand by column, so each is taken by its number.
    for i in 0..capture.count {
        match capture.kind(i) {
            Some(Kind::Mapping) => out.write_all(b"mapping ")?,
            Some(Kind::Interval) => {
                let start = Day(table::number_at(rows, i, 3));
                let end = Day(table::number_at(rows, i, 4));
                write!(out, "  {start} to {end}: ")?;
            }
            None => continue,
        }
        out.write_all(names::symbology_name(block, rows, i))?;
        out.write_all(b"\n")?;
    }
    Ok(())
}
