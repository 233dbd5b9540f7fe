// The morning report: what a night came to, as lines of text.
#![tactic(auto)]

ghost use Rattle.std.specs.Prelude.{[], ◌∷◌, ◌+◌, ◌<◌, get_or};
ghost use Rattle.put.specs.Output.{RoomFor, Wrote, Filled};
ghost use Rattle.report.specs.Report.{decimal, line, unless_none, refused_line, refused_lines, report};

use count::{ACCEPTED, CUT, ROWS, TOTAL};

// The report on these counts is stored at the front of the output, and its length is the answer.
pub fn write_report(counts: &[u64; 260], out: &mut [u8; 16384]) -> usize
    ensures { Filled (report counts.now) out.old out.new result }
{
    let mut at = put::put_bytes(out, 0, b"kind count\n");
    at = put_line(out, at, b"accepted ", counts[ACCEPTED]);
    at = put_refused(out, at, counts);
    at = put_some(out, at, b"cut ", counts[CUT]);
    at = put_line(out, at, b"rows ", counts[ROWS]);
    put_line(out, at, b"total ", counts[TOTAL])
}

// The lines of the refusal numbers that occurred, rising.
fn put_refused(out: &mut [u8], at: usize, counts: &[u64; 260]) -> usize
    requires { RoomFor at (refused_lines (λ n. get_or counts.now n 0) 0 256) out.old }
    ensures { Wrote at (refused_lines (λ n. get_or counts.now n 0) 0 256) out.old out.new result }
{
    let mut a = at;
    for number in 0..256 {
        a = put_number(out, a, number, counts[number]);
    }
    a
}

// The line of a refusal number that occurred n times; none where n is 0.
fn put_number(out: &mut [u8], at: usize, number: usize, n: u64) -> usize
    requires { RoomFor at (unless_none n (refused_line number n)) out.old }
    ensures { Wrote at (unless_none n (refused_line number n)) out.old out.new result }
{
    if n == 0 {
        return at;
    }
    let mut a = put::put_bytes(out, at, b"refused ");
    a = put_decimal(out, a, number as u64);
    put_line(out, a, b" ", n)
}

// The line of a word and a number; none where the number is 0.
fn put_some(out: &mut [u8], at: usize, word: &[u8], n: u64) -> usize
    requires { RoomFor at (unless_none n (line word.now n)) out.old }
    ensures { Wrote at (unless_none n (line word.now n)) out.old out.new result }
{
    if n == 0 {
        return at;
    }
    put_line(out, at, word, n)
}

// The line of a word, which ends in a blank, and a number.
fn put_line(out: &mut [u8], at: usize, word: &[u8], n: u64) -> usize
    requires { RoomFor at (line word.now n) out.old }
    ensures { Wrote at (line word.now n) out.old out.new result }
{
    let mut a = put::put_bytes(out, at, word);
    a = put_decimal(out, a, n);
    put::put_bytes(out, a, b"\n")
}

// The decimal digits of n.
fn put_decimal(out: &mut [u8], at: usize, n: u64) -> usize
    requires { RoomFor at (decimal n) out.old }
    ensures { Wrote at (decimal n) out.old out.new result }
{
    if n < 10 {
        return put_digit(out, at, n);
    }
    let a = put_decimal(out, at, n / 10);
    put_digit(out, a, n % 10)
}

// One decimal digit.
fn put_digit(out: &mut [u8], at: usize, digit: u64) -> usize
    requires { (digit < 10) × RoomFor at ((48 + digit) ∷ []) out.old }
    ensures { Wrote at ((48 + digit) ∷ []) out.old out.new result }
{
    put::put_little(out, at, 48 + digit as usize, 1)
}
