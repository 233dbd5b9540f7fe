// The morning count: what came of each input of a night, counted.
#![tactic(auto)]

ghost use Rattle.std.specs.Prelude.{◌≡◌, ◌+◌, ◌<◌};
ghost use Rattle.count.specs.Count.{clipped, raised, counted, counted_end};

// Where the counts stand: that of a refusal number at the number itself, the others after them. `counted` and the sum of all are of such a list.
pub const ACCEPTED: usize = 256;

pub const CUT: usize = 257;

pub const ROWS: usize = 258;

pub const TOTAL: usize = 259;

// A count goes no higher.
const MOST: u64 = 18446744073709551615;

// What came of one input: accepted, with so many symbology rows; refused by a number; or cut, where the bytes ended inside it.
// The number stays one: `counted` counts it at the place that is the number.
#[derive(Clone, Copy)]
pub enum Outcome {
    Accepted { rows: u64 },
    Refused(u8),
    Cut,
}

// One outcome more is counted. A count that is at 2^64 - 1 stays there.
pub fn count(counts: &mut [u64; 260], outcome: Outcome)
    ensures { counts.new ≡ counted outcome counts.old }
{
    raise(counts, TOTAL, 1);
    match outcome {
        Outcome::Accepted { rows } => {
            raise(counts, ACCEPTED, 1);
            raise(counts, ROWS, rows);
        }
        Outcome::Refused(number) => raise(counts, number as usize, 1),
        Outcome::Cut => raise(counts, CUT, 1),
    }
}

// The bytes of a night end with so many held. Where that is not 0 an input was cut, and is counted.
pub fn count_end(counts: &mut [u64; 260], held: usize)
    ensures { counts.new ≡ counted_end held counts.old }
{
    if held != 0 {
        count(counts, Outcome::Cut);
    }
}

// The count at a place is raised by n.
fn raise(counts: &mut [u64; 260], at: usize, n: u64)
    requires { at < 260 }
    ensures { counts.new ≡ raised at n counts.old }
{
    counts[at] = sum(counts[at], n);
}

// The sum of two numbers, or 2^64 - 1 where it is more.
fn sum(a: u64, b: u64) -> u64
    ensures { result ≡ clipped (a + b) }
{
    if MOST - a < b {
        return MOST;
    }
    a + b
}
