// A night: preludes with their blocks, end on end, come in pieces. One at a time is held in a store that the caller lends, and what comes
// of it is counted.
#![tactic(auto)]

ghost use Rattle.std.specs.Prelude.{◌≡◌, false};
ghost use Rattle.codec.specs.Codec.{among};
ghost use Rattle.night.specs.Night.{end_numbers, standing, Passed};
ghost use Rattle.night.specs.Turns.{Small, Judged, TurnIs};

use block::ReadError;
use count::Outcome;
use feed::Answer;

// How many bytes of the store are held, and whether the reading is over. The caller hands it back with all that is lent, unaltered. A night
// begins with nothing held and not over.
#[derive(Clone, Copy)]
pub struct State {
    pub held: usize,
    pub ended: bool,
}

// How many bytes of the piece a turn took, and the state after it.
#[derive(Clone, Copy)]
struct Turn {
    taken: usize,
    state: State,
}

// A piece of the night: each input that it completes is counted, and what it leaves of the next is held. After a prelude that is refused,
// and after 1, 2 and 3, the next start is unknown, so the reading is over, and nothing more is taken.
pub fn read_piece(
    state: State,
    store: &mut [u8],
    piece: &[u8],
    sheet: &[u16; 520],
    symbology: &mut [u32],
    layout: &mut [u32],
    counts: &mut [u64; 260],
) -> State
    ensures { Passed sheet.now (standing state store.old symbology.old layout.old counts.old) piece.now result store.new symbology.new layout.new counts.new }
{
    let mut held = state.held;
    let mut ended = state.ended;
    let mut at = 0;
    // A while: each turn moves the place by what a feed takes. The turns are a bound on them.
    let mut turns = piece.len() + 1;
    while 0 < turns {
        if piece.len() <= at {
            return State { held, ended };
        }
        if ended {
            return State { held, ended };
        }
        let turn = take_turn(held, store, &piece[at..], sheet, symbology, layout, counts);
        let next = turn.state;
        at += turn.taken;
        held = next.held;
        ended = next.ended;
        turns -= 1;
    }
    State { held, ended }
}

// One feed, and what it comes to.
fn take_turn(
    held: usize,
    store: &mut [u8],
    piece: &[u8],
    sheet: &[u16; 520],
    symbology: &mut [u32],
    layout: &mut [u32],
    counts: &mut [u64; 260],
) -> Turn
    ensures { TurnIs sheet.now (standing (record { held = held; ended = false }) store.old symbology.old layout.old counts.old) piece.now result store.new symbology.new layout.new counts.new }
{
    let fed = feed::feed(feed::State { held }, store, piece, sheet, symbology, layout);
    let state = fed.state;
    let answer = fed.answer;
    Turn {
        taken: fed.taken,
        state: judge(state.held, answer, counts),
    }
}

// Counts what an answer comes to, and answers the state after it: bytes are still needed, or the next input begins, or the reading is over.
fn judge(held: usize, answer: Result<Answer, ReadError>, counts: &mut [u64; 260]) -> State
    requires { Small answer }
    ensures { Judged held answer counts.old result counts.new }
{
    match answer {
        Ok(Answer::Needs(_)) => State { held, ended: false },
        Ok(Answer::Done(f)) => {
            count::count(
                counts,
                Outcome::Accepted {
                    rows: f.symbology_rows as u64,
                },
            );
            State {
                held: 0,
                ended: false,
            }
        }
        Err(ReadError::Refused(e)) => {
            count::count(counts, Outcome::Refused(e.number as u8));
            State {
                held: 0,
                ended: is_end(e.number),
            }
        }
        Err(
            ReadError::Short {
                symbology: _,
                layout: _,
            },
        ) => {
            count::count(counts, Outcome::Refused(refusal::TABLE_SHORT as u8));
            State {
                held: 0,
                ended: true,
            }
        }
    }
}

// Whether a refusal leaves the next start unknown: the held count, the store, the prelude.
fn is_end(number: u32) -> bool
    ensures { result ≡ among number end_numbers }
{
    matches!(
        number,
        refusal::HELD_BEYOND
            | refusal::STORE_SHORT
            | refusal::MAGIC
            | refusal::VERSION
            | refusal::BLOCK_LENGTH
    )
}
