// Frames: the records of versions 1 to 3 come in pieces, are held one at a time in a store that the caller lends, and are handed over whole.
#![tactic(auto)]

ghost use Rattle.std.specs.Prelude.{◌≡◌, length, take};
ghost use Rattle.held.specs.Held.{held_of};
ghost use Rattle.frames.specs.Frames.{frame, answer_of, Framing};
ghost use Rattle.frames.specs.AtOnceLaws.{whole_in};

use held::Holding;
use refusal::Refusal;

// The bytes of a record's header.
const RECORD_HEADER_LEN: usize = 16;

// A record's length counts words of so many bytes.
const LENGTH_MULTIPLIER: usize = 4;

// How many bytes of the store are held, 0 for a new frame. The caller hands it back with the store, both unaltered.
#[derive(Clone, Copy)]
pub struct State {
    pub held: usize,
}

// What the held bytes say: so many more are needed, or a whole frame of this length and rtype. A refusal is about no byte.
#[derive(Clone, Copy)]
pub enum Answer {
    Needs(usize),
    Frame { len: usize, rtype: u8 },
}

// How many bytes of the piece were taken, the state after them, and what the held bytes then say.
#[derive(Clone, Copy)]
pub struct Framed {
    pub taken: usize,
    pub state: State,
    pub answer: Result<Answer, Refusal>,
}

// A piece comes: what the header, then the frame, still needs is taken into the store right after the held bytes. The answer is the verdict
// on what is then held. A whole frame is the store's front; the next one begins with nothing held.
pub fn frame(state: State, store: &mut [u8], piece: &[u8]) -> Framed
    ensures { Framing state.held store.old piece.now result store.new }
{
    if state.held == 0 {
        if let Some(len) = whole_in(store.len(), piece) {
            let taken = held::pour(0, store, piece, Ok(Holding::Needs(len)));
            return Framed {
                taken,
                state: State { held: taken },
                answer: Ok(Answer::Frame {
                    len,
                    rtype: piece[1],
                }),
            };
        }
    }
    by_stages(state.held, store, piece)
}

// The frame as a part of the caller's own store: its first `len` bytes, or the whole store where it is shorter.
pub fn frame_part(store: &[u8], len: usize) -> &[u8]
    ensures { result.now ≡ take len store.now }
{
    if store.len() < len {
        return store;
    }
    &store[..len]
}

// The length of the frame that a piece begins with, where all of it is there and the store has room for it.
fn whole_in(room: usize, piece: &[u8]) -> Option<usize>
    ensures { result ≡ whole_in room piece.now }
{
    let there = piece.len();
    if there < RECORD_HEADER_LEN {
        return None;
    }
    let len = LENGTH_MULTIPLIER * piece[0] as usize;
    if len < RECORD_HEADER_LEN || there < len || room < len {
        return None;
    }
    Some(len)
}

// The same as `frame`, for any state: first to the header's end, then to the frame's.
fn by_stages(held: usize, store: &mut [u8], piece: &[u8]) -> Framed
    ensures { Framing held store.old piece.now result store.new }
{
    let a = held::pour(held, store, piece, stage_of(held, store));
    let first = held + a;
    let b = held::pour(first, store, &piece[a..], stage_of(first, store));
    let second = first + b;
    let answer = answer_of(stage_of(second, store));
    Framed {
        taken: a + b,
        state: State { held: second },
        answer,
    }
}

// What the first `held` bytes of a store are: their kind is the rtype.
fn stage_of(held: usize, store: &[u8]) -> Result<Holding, Refusal>
    ensures { result ≡ held_of frame held store.now }
{
    let room = store.len();
    if room < held {
        return held::refused(refusal::HELD_BEYOND);
    }
    if room < RECORD_HEADER_LEN {
        return held::refused(refusal::FRAME_STORE_SHORT);
    }
    if held < RECORD_HEADER_LEN {
        return Ok(Holding::Needs(RECORD_HEADER_LEN - held));
    }
    let len = LENGTH_MULTIPLIER * store[0] as usize;
    if len < RECORD_HEADER_LEN {
        return held::refused(refusal::FRAME_LENGTH);
    }
    held::bounded(refusal::FRAME_STORE_SHORT, room, held, len, store[1])
}

// The answer that held bytes give.
fn answer_of(stage: Result<Holding, Refusal>) -> Result<Answer, Refusal>
    ensures { result ≡ answer_of stage }
{
    Ok(match stage? {
        Holding::Needs(n) => Answer::Needs(n),
        Holding::Whole { len, kind: rtype } => Answer::Frame { len, rtype },
    })
}
