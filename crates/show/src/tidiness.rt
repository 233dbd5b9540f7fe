// Whether a layout, given by itself, is in the plain form that the writer gives.
ghost use Rattle.std.specs.Prelude.{IfOk, IfSome};
ghost use Rattle.std.specs.Io.KnownBytes.{IsAtEnd};

use crate::options::Options;
use crate::sheet::Sheet;
use crate::tell::Status;
use crate::{refusals, width};
use std::io;
use std::io::{Read, Write};

// Reads a layout to its end, in pieces of 4,096 bytes, and answers how long it is; nothing where the store has no room for a piece. Each
// turn takes a byte at least, so after as many turns as the store has bytes there is room for no more.
pub(crate) fn read_all<R: Read>(input: &mut R, store: &mut [u8]) -> io::Result<Option<usize>>
    ensures { IfOk result (λ read. IfSome read (λ _. IsAtEnd (R.remaining input.new))) }
{
    let mut held = 0;
    for _ in 0..=store.len() {
        let mut piece = [0u8; 4096];
        let n = input.read(&mut piece)?;
        if n == 0 {
            return Ok(Some(held));
        }
        let next = put::put_bytes(store, held, &piece[..n]);
        if next == held {
            return Ok(None);
        }
        held = next;
    }
    Ok(None)
}

// Writes whether a layout is tidy, else the refusal, and then what it was judged with.
pub(crate) fn report(
    out: &mut impl Write,
    layout: &[u8],
    asked: Options,
    sheet: &Sheet,
) -> io::Result<Status> {
    let width = asked.width.unwrap_or(width::USUAL);
    let status = verdict(out, layout, width, sheet)?;
    let origin = sheet.origin;
    match asked.width {
        Some(_) => writeln!(out, "symbol width: {width}")?,
        None => writeln!(out, "symbol width: {width}; --width N gives another")?,
    }
    writeln!(out, "type sheet: {origin}")?;
    Ok(status)
}

// A line that says that a layout is tidy, or the refusal.
fn verdict(out: &mut impl Write, layout: &[u8], width: u16, sheet: &Sheet) -> io::Result<Status> {
    match tidy::check_tidy(layout, width, &sheet.numbers) {
        Ok(()) => {
            out.write_all(b"tidy\n")?;
            Ok(Status::Accepted)
        }
        Err(why) => {
            refusals::of_layout(out, why, layout)?;
            Ok(Status::Refused)
        }
    }
}
