// Held bytes: what comes in pieces is held in a store that the caller lends, until it is whole. Feeding and frames stand on this.
#![tactic(auto)]

ghost use Rattle.std.specs.Prelude.{◌≡◌, ◌-◌, ◌≤◌, length, Result, Err};
ghost use Rattle.std.proofs.Math.Seq.{paste};
ghost use Rattle.codec.specs.Codec.{refusal};
ghost use Rattle.held.specs.Held.{bounded, need_of, put_of};

use refusal::Refusal;

// What held bytes are: so many more are needed, or they are whole, so many bytes of the kind that their head tells.
#[derive(Clone, Copy)]
pub enum Holding {
    Needs(usize),
    Whole { len: usize, kind: u8 },
}

// Held bytes that are refused by a number that is about no byte.
pub fn refused(number: u32) -> Result<Holding, Refusal>
    ensures { result ≡ Err (refusal number 0) }
{
    Err(Refusal { number, place: 0 })
}

// The verdict on `held` bytes of a whole of `len` bytes, in a store of `room`: refused by `short` where the store is below the whole and by 1
// where more is held than the whole has, else what is missing, or the whole.
pub fn bounded(
    short: u32,
    room: usize,
    held: usize,
    len: usize,
    kind: u8,
) -> Result<Holding, Refusal>
    ensures { result ≡ bounded short room held len kind }
{
    if room < len {
        return refused(short);
    }
    if len < held {
        return refused(refusal::HELD_BEYOND);
    }
    if held < len {
        return Ok(Holding::Needs(len - held));
    }
    Ok(Holding::Whole { len, kind })
}

// Puts what is needed of the piece into the store, right after the held bytes, at most what the piece has and the store has room for, and
// answers how many bytes that is.
pub fn pour(held: usize, store: &mut [u8], piece: &[u8], stage: Result<Holding, Refusal>) -> usize
    ensures { (result ≡ put_of held store.old piece.now stage) × (store.new ≡ paste store.old held piece.now result) }
{
    let room = store.len();
    if room < held {
        return 0;
    }
    let n = need(stage).min(piece.len()).min(room - held);
    copy(store, held, piece, n);
    n
}

// Puts the first n bytes of the piece into the store, from place `at` on. A loop and not a copied slice: that is a call of `memmove`, which
// a caller in C would have to bring, and a record that comes a byte at a time took 1.4 of the time by it.
fn copy(store: &mut [u8], at: usize, piece: &[u8], n: usize)
    requires { (n ≤ length store.old - at) × (n ≤ length piece.now) }
    ensures { store.new ≡ paste store.old at piece.now n }
{
    for j in 0..n {
        store[at + j] = piece[j];
    }
}

// How many bytes are still needed.
fn need(stage: Result<Holding, Refusal>) -> usize
    ensures { result ≡ need_of stage }
{
    match stage {
        Ok(Holding::Needs(n)) => n,
        _ => 0,
    }
}
