// Reads document 01's layouts P7 and P9 step by step and prints what each step gives: the layout's numbers, its section, and in
// the section's own part the name and the label.
#![tactic(auto)]

ghost use Rattle.numbers.specs.Numbers.{Past};

use refusal::Refusal;
use std::io;
use std::io::Write;

fn main(rt: HostRuntime) -> io::Result<()> {
    let mut out = io::writer(&rt);
    show_layout(
        &mut out,
        b"\x01\x00\x00\x00\x00\x00\x01\x00\x0E\x00\x01S\x00\x01\x00B\x00\x03Bid\x00",
    )?;
    show_layout(
        &mut out,
        b"\x01\x00\x00\x00\x00\x00\x01\x00\x01\x00\x01S\x00\x01\x00B\x00\x03Bid\x00",
    )
}

// Why no more steps are shown: one was refused, or the output failed.
#[derive(Clone, Copy)]
enum Stop {
    Refused(Refusal),
    Output(io::Error),
}

impl From<Refusal> for Stop {
    fn from(why: Refusal) -> Stop {
        Stop::Refused(why)
    }
}

impl From<io::Error> for Stop {
    fn from(why: io::Error) -> Stop {
        Stop::Output(why)
    }
}

// A layout's steps up to a refusal, which is shown with its place in what was read.
fn show_layout(out: &mut impl Write, s: &[u8]) -> io::Result<()> {
    match layout(out, s) {
        Ok(()) => Ok(()),
        Err(Stop::Refused(why)) => writeln!(out, "refused {} at {}", why.number, why.place),
        Err(Stop::Output(why)) => Err(why),
    }
}

// A layout without records and structs.
fn layout(out: &mut impl Write, s: &[u8]) -> Result<(), Stop> {
    let at = show_u16(out, "layout version", s, 0)?;
    let at = show_u16(out, "records", s, at)?;
    let at = show_u16(out, "structs", s, at)?;
    let at = show_u16(out, "label defs", s, at)?;
    let (body, end) = wire::section_at(s, at)?;
    label_def(out, &s[body..end])
}

// A label def with one label, from its section's own part.
fn label_def(out: &mut impl Write, s: &[u8]) -> Result<(), Stop> {
    let name = wire::name_at(s, 0);
    out.write_all(b"name ")?;
    line(out, text_of(s, 0, name)?)?;
    let (_, next) = name?;
    let at = show_u16(out, "labels", s, next)?;
    label(out, s, at)
}

fn label(out: &mut impl Write, s: &[u8], at: usize) -> Result<(), Stop> {
    let label = byte_reader::label_in(s, at);
    let (code, next) = label.code?;
    write!(out, "label {code} ")?;
    line(out, text_of(s, next, label.name)?)?;
    Ok(())
}

// Shows the number at `at`, and answers the place after it.
fn show_u16(out: &mut impl Write, what: &str, s: &[u8], at: usize) -> Result<usize, Stop> {
    let (number, next) = numbers::u16_at(s, at, refusal::LAYOUT_TRUNCATED)?;
    writeln!(out, "{what} {number}")?;
    Ok(next)
}

// The text of the name that was read at `at`, between its length and its closing NUL.
fn text_of(s: &[u8], at: usize, name: Result<(usize, usize), Refusal>) -> Result<&[u8], Refusal>
    requires { Past 256 2 s.now at name }
{
    let (_, next) = name?;
    Ok(&s[at + 1..next - 1])
}

// A text and the line's end.
fn line(out: &mut impl Write, s: &[u8]) -> io::Result<()> {
    out.write_all(s)?;
    out.write_all(b"\n")
}
