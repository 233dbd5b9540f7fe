// Records on standard input, cut into two pieces at every place: the frames that come are written, a line for each cut, and every line is
// the same but for the place. A frame is told by its length, its rtype and the sum of its bytes.
#![tactic(auto)]

ghost use Rattle.std.specs.Prelude.{◌≤◌, length};

use frames::{Answer, State};
use refusal::Refusal;
use std::io;
use std::io::Write;

fn main(rt: HostRuntime) -> io::Result<()> {
    let mut input = [0u8; 4096];
    let n = reading::read_full(&mut rt.reader(), &mut input)?;
    every_cut(&mut io::writer(&rt), &input[..n])
}

// Each place, from before the first byte to after the last one.
fn every_cut(out: &mut impl Write, all: &[u8]) -> io::Result<()> {
    for cut in 0..=all.len() {
        show_cut(out, all, cut)?;
    }
    Ok(())
}

// The frames of two pieces, and how many bytes are left over.
fn show_cut(out: &mut impl Write, all: &[u8], cut: usize) -> io::Result<()>
    requires { cut ≤ length all.now }
{
    let (first, second) = all.split_at(cut);
    let mut store = [0u8; 1020];
    write!(out, "cut at {cut}:")?;
    let held = show_frames(out, 0, first, &mut store)?;
    let held = show_frames(out, held, second, &mut store)?;
    writeln!(out, " {held} left")
}

// Writes the frames that a piece ends, after `held` bytes; answers how many bytes are then held. Each turn but the last takes a byte at
// least, so there are no more turns than the piece has bytes.
fn show_frames(
    out: &mut impl Write,
    held: usize,
    piece: &[u8],
    store: &mut [u8],
) -> io::Result<usize> {
    let mut held = held;
    let mut rest = piece;
    for _ in 0..piece.len() {
        let framed = frames::frame(State { held }, store, rest);
        let state = framed.state;
        held = show_answer(out, state.held, framed.answer, store)?;
        if framed.taken == 0 || rest.len() <= framed.taken {
            return Ok(held);
        }
        rest = &rest[framed.taken..];
    }
    Ok(held)
}

// Writes a frame or a refusal; answers how many bytes the next call begins with.
fn show_answer(
    out: &mut impl Write,
    held: usize,
    answer: Result<Answer, Refusal>,
    store: &[u8],
) -> io::Result<usize> {
    match answer {
        Ok(Answer::Needs(_)) => Ok(held),
        Ok(Answer::Frame { len, rtype }) => {
            let sum = sum(frames::frame_part(store, len));
            write!(out, " {len} bytes of rtype {rtype}, sum {sum};")?;
            Ok(0)
        }
        Err(why) => {
            write!(out, " refused by {};", why.number)?;
            Ok(held)
        }
    }
}

// The sum of the bytes of a frame.
fn sum(bytes: &[u8]) -> u64 {
    bytes
        .iter()
        .fold(0, |sum: u64, x| sum.wrapping_add(u64::from(*x)))
}
