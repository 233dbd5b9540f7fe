// C functions for the start of a stream: a block given whole, and feeding. Nothing here but calls of the layers.
#![tactic(auto)]

ghost use Rattle.c_start.specs.Numbers.{BlockC, FeedC};

use block::ReadError;
use feed::State;

// Reads a block given whole: its rows go into the tables, its fields into `out`. With 3 the rows needed are at 10 and 11; a refusal from
// reading has its place at 13, counted from the block, and 3 for the version, which stands there in the prelude.
pub fn dbn_block(
    version: u8,
    block: &[u8],
    sheet: &[u16; 520],
    symbology: &mut [u32],
    layout: &mut [u32],
    out: &mut [u64; 16],
) -> u32
    ensures { BlockC version block.now sheet.now symbology.old layout.old out.old result symbology.new layout.new out.new }
{
    match block::read_block(version, block, sheet, symbology, layout) {
        Ok(f) => {
            *out = c_answer::fields_out(f);
            0
        }
        Err(ReadError::Refused(e)) => {
            c_texts::put_place(e, out);
            e.number
        }
        Err(
            ReadError::Short {
                symbology: s,
                layout: l,
            },
        ) => {
            out[10] = s as u64;
            out[11] = l as u64;
            refusal::TABLE_SHORT
        }
    }
}

// Feeds a piece after `held` bytes of the store. `out` gets the count taken at 16, the new held count at 17 and the count needed at 18;
// when the block is done the first sixteen are as those of dbn_block, and with 3 the rows needed are at 10 and 11. A refusal
// from reading has its place at 13, counted from the prelude for 10 to 12 and else from the block.
pub fn dbn_feed(
    held: u64,
    store: &mut [u8],
    piece: &[u8],
    sheet: &[u16; 520],
    symbology: &mut [u32],
    layout: &mut [u32],
    out: &mut [u64; 20],
) -> u32
    ensures { FeedC held store.old piece.now sheet.now symbology.old layout.old out.old result store.new symbology.new layout.new out.new }
{
    let start = State {
        held: held as usize,
    };
    let fed = feed::feed(start, store, piece, sheet, symbology, layout);
    let state = fed.state;
    out[16] = fed.taken as u64;
    out[17] = state.held as u64;
    out[18] = 0;
    let answer = fed.answer;
    c_answer::put_answer(answer, out)
}
