// C functions for the start of a stream that is kept in a house file. Nothing here but calls of the layers.
#![tactic(auto)]

ghost use Rattle.std.specs.Prelude.{◌≡◌};
ghost use Rattle.house.specs.Start.{number_of};
ghost use Rattle.c_house.specs.Numbers.{held_out, StoreC, LoadC};

use block::ReadError;
use feed::Answer;
use house::Held;

// Stores the start of a stream, prelude and block, as a house file: `out` gets the length written at 0. A refusal leaves the output as it
// was, and tells its place at 13 of `out` where its number has one, counted as dbn_feed counts it.
pub fn dbn_house_store(
    stream: &[u8],
    sheet: &[u16; 520],
    output: &mut [u8],
    out: &mut [u64; 16],
) -> u32
    ensures { StoreC stream.now sheet.now output.old out.old result output.new out.new }
{
    match house::store_start(stream, sheet, output) {
        Ok(n) => {
            out[0] = n as u64;
            0
        }
        Err(e) => {
            c_texts::put_place(e, out);
            e.number
        }
    }
}

// Loads a house file: what it holds stands at the front of the store, and `out` and the tables are as dbn_feed leaves them with nothing
// taken. Where bytes are still needed the number is 134, and the count needed stands at 18. A file that is refused, and 1 for a store that
// is too short for what it holds, leave everything as it was.
pub fn dbn_house_load(
    file: &[u8],
    store: &mut [u8],
    sheet: &[u16; 520],
    symbology: &mut [u32],
    layout: &mut [u32],
    out: &mut [u64; 20],
) -> u32
    ensures { LoadC file.now store.old sheet.now symbology.old layout.old out.old result store.new symbology.new layout.new out.new }
{
    match house::load_start(file, store, sheet, symbology, layout) {
        Err(e) => e.number,
        Ok(Held { len, answer }) => put_held(len, answer, out),
    }
}

// How many bytes are held, and the reader's answer on them, of which bytes that are still needed are 134.
fn put_held(len: usize, answer: Result<Answer, ReadError>, out: &mut [u64; 20]) -> u32
    ensures { (result ≡ number_of answer) × (out.new ≡ held_out len answer out.old) }
{
    out[16] = 0;
    out[17] = len as u64;
    out[18] = 0;
    let number = c_answer::put_answer(answer, out);
    match answer {
        Ok(Answer::Needs(_)) => refusal::HOUSE_NEEDS,
        Ok(Answer::Done(_)) | Err(_) => number,
    }
}
