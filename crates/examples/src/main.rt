// Runs the cases of standard input, one to a line, and writes what the readers, the rules and the writer answer. A refusal is
// its number and, where it has one, its place in the block, the symbology or the layout. A line is a kind and the bytes of the
// case in hexadecimal; spaces are passed over. Numbers are little-endian.
//   #  a remark, written as it is
//   s  a type sheet for the cases after it: places of numbers that are not 0, each with its number, two bytes each
//   b  a block: its version, the rows of each lent table (two bytes), the block
//   y  a symbology: its width (two bytes), its place in the block (two), its bytes
//   l  a layout: the symbol width (two bytes), the layout
//   m  a layout with many labels: how many stand before the last (two bytes), with codes 0, 1 and so on, the last one (four
//      bytes), the symbol width (two), the layout up to its first label
//   t  a layout that is read, written and read again: the symbol width (two bytes), the layout
//   i  a layout that is asked whether it is tidy: the symbol width (two bytes), the layout
//   w  rows for the writer: symbol width, layout version, bytes of output, how often the last row stands once more, length
//      of the texts (two bytes each), the texts, the rows
#![tactic(auto)]

mod bytes;
mod readers;
mod rows;
mod show;
mod written;

ghost use Rattle.std.specs.Prelude.{◌<◌, IfSome};

use readers::LayoutCase;
use std::alloc::Global;
use std::io::Write;
use std::{fmt, io};

fn main(rt: HostRuntime) -> io::Result<()> {
    let mut input = vec![in rt.alloc(); 0; 1048576]?;
    let n = reading::read_full(&mut rt.reader(), &mut input)?;
    let mut cases = Cases {
        out: io::writer(&rt),
        alloc: rt.alloc(),
        sheet: [0; 520],
        room: vec![in rt.alloc(); 0; 131072]?,
    };
    for line in input[..n].split(|x| *x == b'\n') {
        cases.line(line)?;
    }
    Ok(())
}

// Where the answers go, the type sheet that came last, and room for the bytes of a case.
#[derive(Drop)]
struct Cases<W> {
    out: W,
    alloc: Global,
    sheet: [u16; 520],
    room: Vec<u8>,
}

impl<W: Write> Cases<W> {
    // A remark, or a case; nothing for an empty line.
    fn line(&mut self, text: &[u8]) -> io::Result<()> {
        if let Some((first, digits)) = text.split_first() {
            let kind = Kind::try_from(*first);
            if let Ok(Kind::Remark) = kind {
                return show::line(&mut self.out, text);
            }
            let n = unhex(digits, &mut self.room);
            return match kind {
                Ok(kind) => self.case(kind, n),
                Err(unknown) => writeln!(self.out, "{unknown}"),
            };
        }
        Ok(())
    }

    // One case of a kind, of the first n bytes in the room.
    fn case(&mut self, kind: Kind, n: usize) -> io::Result<()> {
        let n = match kind {
            Kind::ManyLabels => readers::with_labels(&mut self.room, n),
            _ => n,
        };
        let s = bytes::front(&self.room, n);
        let out = &mut self.out;
        let sheet = &self.sheet;
        match kind {
            Kind::Remark => Ok(()),
            Kind::Sheet => {
                self.sheet = sheet_of(s);
                Ok(())
            }
            Kind::Block => readers::block(out, self.alloc, s, sheet),
            Kind::Symbology => readers::symbology(out, s),
            Kind::Layout => readers::layout(out, self.alloc, LayoutCase::of(s, sheet)),
            Kind::ManyLabels => {
                readers::layout(out, self.alloc, LayoutCase::of(bytes::from(s, 6), sheet))
            }
            Kind::Again => written::again(out, self.alloc, LayoutCase::of(s, sheet)),
            Kind::Tidy => readers::tidy(out, LayoutCase::of(s, sheet)),
            Kind::Rows => written::rows(out, self.alloc, s, sheet),
        }
    }
}

// What a line is.
#[derive(Clone, Copy)]
enum Kind {
    Remark,
    Sheet,
    Block,
    Symbology,
    Layout,
    ManyLabels,
    Again,
    Tidy,
    Rows,
}

impl TryFrom<u8> for Kind {
    type Error = UnknownKind;

    fn try_from(first: u8) -> Result<Self, UnknownKind> {
        match first {
            b'#' => Ok(Kind::Remark),
            b's' => Ok(Kind::Sheet),
            b'b' => Ok(Kind::Block),
            b'y' => Ok(Kind::Symbology),
            b'l' => Ok(Kind::Layout),
            b'm' => Ok(Kind::ManyLabels),
            b't' => Ok(Kind::Again),
            b'i' => Ok(Kind::Tidy),
            b'w' => Ok(Kind::Rows),
            _ => Err(UnknownKind),
        }
    }
}

// A byte that begins no line.
#[derive(Clone, Copy, Debug)]
struct UnknownKind;

impl fmt::Display for UnknownKind {
    fn fmt<W: fmt::Write>(&self, f: &mut fmt::Formatter<W>) -> fmt::Result {
        f.write_str("no such kind")
    }
}

// The sheet with these numbers at these places, and 0 elsewhere.
fn sheet_of(s: &[u8]) -> [u16; 520] {
    let mut sheet = [0u16; 520];
    let (pairs, _) = s.as_chunks::<4>();
    for [a, b, c, d] in pairs {
        let at = usize::from(u16::from_le_bytes([*a, *b]));
        if let Some(place) = sheet.get_mut(at) {
            *place = u16::from_le_bytes([*c, *d]);
        }
    }
    sheet
}

// How many bytes the text has in hexadecimal; they are put into the room, as many as it has place for. A character that begins no pair of
// digits is passed over, so how far a step goes depends on the text.
fn unhex(text: &[u8], room: &mut [u8]) -> usize {
    let mut n = 0;
    let mut i = 0;
    while i + 1 < text.len() {
        match (digit(text[i]), digit(text[i + 1])) {
            (Some(high), Some(low)) => {
                bytes::put(room, n, high * 16 + low);
                n += 1;
                i += 2;
            }
            _ => i += 1,
        }
    }
    n
}

// The value of a hexadecimal digit.
fn digit(b: u8) -> Option<u8>
    ensures { IfSome result (λ value. value < 16) }
{
    match b {
        b'0'..=b'9' => Some(b - b'0'),
        b'a'..=b'f' => Some(b - b'a' + 10),
        _ => None,
    }
}
