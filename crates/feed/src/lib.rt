// Feeding: the start of a stream comes in pieces, is held in a store that the caller lends, and is read once its block is whole.
#![tactic(auto)]

ghost use Rattle.std.specs.Prelude.{◌≡◌};
ghost use Rattle.feed.specs.Feeding.{stage_of, Judgement, Feeding};

use block::{Fields, ReadError};
use held::Holding;
use prelude::Stage;
use refusal::Refusal;

// The bytes of a prelude.
const METADATA_PRELUDE_LEN: usize = 8;

// How many bytes of the store are held. The caller hands it back with the store, both unaltered.
#[derive(Clone, Copy)]
pub struct State {
    pub held: usize,
}

// What the held bytes say: so many more are needed, or the block's fields.
#[derive(Clone, Copy)]
pub enum Answer {
    Needs(usize),
    Done(Fields),
}

// How many bytes of the piece were taken, the state after them, and what the held bytes then say. The place of a refusal by 10 to 12 counts
// from the prelude, that of the others from the block.
#[derive(Clone, Copy)]
pub struct Fed {
    pub taken: usize,
    pub state: State,
    pub answer: Result<Answer, ReadError>,
}

// A piece is fed: what the prelude, then the block, still needs is taken into the store right after the held bytes. The answer is the
// verdict on what is then held, with the tables lent now; a refusal leaves the tables as they were.
pub fn feed(
    state: State,
    store: &mut [u8],
    piece: &[u8],
    sheet: &[u16; 520],
    symbology: &mut [u32],
    layout: &mut [u32],
) -> Fed
    ensures { Feeding state.held store.old piece.now sheet.now symbology.old layout.old result store.new symbology.new layout.new }
{
    let held = state.held;
    let a = held::pour(held, store, piece, stage_of(held, store));
    let first = held + a;
    let b = held::pour(first, store, &piece[a..], stage_of(first, store));
    let second = first + b;
    let answer = judge(second, store, sheet, symbology, layout);
    Fed {
        taken: a + b,
        state: State { held: second },
        answer,
    }
}

// What the first `held` bytes of a store are, up to the block's own verdict: their kind is the version.
fn stage_of(held: usize, store: &[u8]) -> Result<Holding, Refusal>
    ensures { result ≡ stage_of held store.now }
{
    let room = store.len();
    if room < held {
        return held::refused(refusal::HELD_BEYOND);
    }
    if room < METADATA_PRELUDE_LEN {
        return held::refused(refusal::STORE_SHORT);
    }
    match prelude::prelude(&store[..held])? {
        Stage::Needs(k) => Ok(Holding::Needs(k)),
        Stage::Whole { version, len } => {
            if room - METADATA_PRELUDE_LEN < len {
                return held::refused(refusal::STORE_SHORT);
            }
            held::bounded(
                refusal::STORE_SHORT,
                room,
                held,
                METADATA_PRELUDE_LEN + len,
                version,
            )
        }
    }
}

// The answer on held bytes, with the tables lent.
fn judge(
    held: usize,
    store: &[u8],
    sheet: &[u16; 520],
    symbology: &mut [u32],
    layout: &mut [u32],
) -> Result<Answer, ReadError>
    ensures { Judgement held store.now sheet.now symbology.old layout.old result symbology.new layout.new }
{
    match stage_of(held, store)? {
        Holding::Needs(n) => Ok(Answer::Needs(n)),
        Holding::Whole { len, kind: version } => {
            let block = &store[METADATA_PRELUDE_LEN..len];
            let fields = block::read_block(version, block, sheet, symbology, layout)?;
            Ok(Answer::Done(fields))
        }
    }
}
