// What the report shows as people write it.
use command_line::escape;
use std::fmt::Display;
use std::io::Write;
use std::{fmt, io};

// A value, or that there is none.
#[derive(Clone, Copy)]
pub(crate) struct OrNone<T>(pub(crate) Option<T>);

impl<T: Display> Display for OrNone<T> {
    fn fmt<W: fmt::Write>(&self, f: &mut fmt::Formatter<W>) -> fmt::Result {
        match &self.0 {
            Some(value) => write!(f, "{value}"),
            None => f.write_str("none"),
        }
    }
}

// A day by its number, as yyyy-mm-dd.
#[derive(Clone, Copy)]
pub(crate) struct Day(pub(crate) u32);

impl Display for Day {
    fn fmt<W: fmt::Write>(&self, f: &mut fmt::Formatter<W>) -> fmt::Result {
        let text = iso::day_text(self.0);
        // The text is ASCII.
        f.write_str(std::str::from_utf8(&text).unwrap_or(""))
    }
}

// Nanoseconds since 1 January 1970, which is day 719,528, as a date and a time of day, UTC.
#[derive(Clone, Copy)]
pub(crate) struct Time(pub(crate) u64);

impl Display for Time {
    fn fmt<W: fmt::Write>(&self, f: &mut fmt::Formatter<W>) -> fmt::Result {
        let seconds = self.0 / 1000000000;
        let nanoseconds = self.0 % 1000000000;
        let day = Day(719528 + (seconds / 86400) as u32);
        let hour = seconds / 3600 % 24;
        let minute = seconds / 60 % 60;
        let second = seconds % 60;
        write!(
            f,
            "{day} {hour:02}:{minute:02}:{second:02}.{nanoseconds:09} UTC"
        )
    }
}

// A text of the stream and the line's end.
pub(crate) fn name(out: &mut impl Write, s: &[u8]) -> io::Result<()> {
    escape::escaped(out, s)?;
    out.write_all(b"\n")
}
