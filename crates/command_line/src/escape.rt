// Texts from outside, written so that none can pass for a line of the program's own.

use std::io;
use std::io::Write;

// Printable ASCII as it is, a backslash as two, any other byte as \xNN. So it never ends a line.
pub fn escaped(out: &mut impl Write, s: &[u8]) -> io::Result<()> {
    let mut from = 0;
    for i in 0..s.len() {
        if !is_plain(s[i]) {
            out.write_all(&s[from..i])?;
            escape(out, s[i])?;
            from = i + 1;
        }
    }
    out.write_all(&s[from..])
}

// A byte that is not printed as it is.
fn escape(out: &mut impl Write, x: u8) -> io::Result<()> {
    if x == b'\\' {
        return out.write_all(b"\\\\");
    }
    write!(out, "\\x{x:02x}")
}

// Printable ASCII but for the backslash.
fn is_plain(x: u8) -> bool {
    matches!(x, b' '..=b'~') && x != b'\\'
}
