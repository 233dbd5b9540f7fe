// The place of a refusal, and the bytes around it.
use std::io;
use std::io::Write;

// The most bytes that are shown before a place, and after the byte there.
const AROUND: usize = 8;

// A line with a place of the bytes, which are called so, and a line with the bytes around it: the byte there in brackets, which are empty
// where the bytes end before it.
pub(crate) fn show(out: &mut impl Write, s: &[u8], called: &str, place: usize) -> io::Result<()> {
    let (before, rest) = s.split_at(place.min(s.len()));
    let (here, after) = rest.split_at(rest.len().min(1));
    writeln!(out, "place {place} of the {called}")?;
    for x in &before[before.len().saturating_sub(AROUND)..] {
        write!(out, "{x:02x} ")?;
    }
    out.write_all(b"[")?;
    for x in here {
        write!(out, "{x:02x}")?;
    }
    out.write_all(b"]")?;
    for x in after.iter().take(AROUND) {
        write!(out, " {x:02x}")?;
    }
    out.write_all(b"\n")
}
