// The C function of frames. Nothing here but a call of the layer.
#![tactic(auto)]

ghost use Rattle.std.specs.Prelude.{◌≡◌};
ghost use Rattle.frames.specs.Frames.{answer_number};
ghost use Rattle.c_frames.specs.Numbers.{answer_out, FrameC};

use frames::{Answer, State};
use refusal::Refusal;

// A piece of the records comes after the first `held` bytes of the store, 0 for a new frame. `out` has the count taken at 0, the count then
// held at 1 and the count still needed at 2, which is 0 with a frame or a refusal; a frame also has its length at 3 and its rtype at 4.
pub fn dbn_frame(held: u64, store: &mut [u8], piece: &[u8], out: &mut [u64; 5]) -> u32
    ensures { FrameC held store.old piece.now out.old result store.new out.new }
{
    let start = State {
        held: held as usize,
    };
    let framed = frames::frame(start, store, piece);
    let state = framed.state;
    out[0] = framed.taken as u64;
    out[1] = state.held as u64;
    out[2] = 0;
    let answer = framed.answer;
    put_answer(answer, out)
}

// What an answer gives: its number, and its values in `out`.
fn put_answer(a: Result<Answer, Refusal>, out: &mut [u64; 5]) -> u32
    ensures { (result ≡ answer_number a) × (out.new ≡ answer_out a out.old) }
{
    match a {
        Ok(Answer::Needs(n)) => {
            out[2] = n as u64;
            0
        }
        Ok(Answer::Frame { len, rtype }) => {
            out[3] = len as u64;
            out[4] = rtype as u64;
            0
        }
        Err(e) => e.number,
    }
}
