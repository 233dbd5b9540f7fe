// The start of a stream, kept in a house file: stored once it is accepted, and loaded through the ordinary reader.
#![tactic(auto)]

ghost use Rattle.std.specs.Prelude.{◌≡◌};
ghost use Rattle.codec.specs.Codec.{refusal};
ghost use Rattle.house.specs.Start.{start_stage, start_fault, Storing, Loading};

use block::ReadError;
use feed::{Answer, State};
use held::Holding;
use prelude::Stage;
use refusal::Refusal;

// How many bytes of a file stand in the store, and the reader's answer on them, of which bytes that are still needed are 134.
#[derive(Clone, Copy)]
pub struct Held {
    pub len: usize,
    pub answer: Result<Answer, ReadError>,
}

// Stores the start of a stream, prelude and block, which must be all of it, and answers how long the file is: refused as the reader refuses
// it, with 1 beyond the block and 134 where bytes are still needed; then 130 above 65,536 blocks; then 112 where the output is shorter than
// the file. A refusal leaves the output as it was.
pub fn store_start(stream: &[u8], sheet: &[u16; 520], output: &mut [u8]) -> Result<usize, Refusal>
    ensures { Storing stream.now sheet.now output.old result output.new }
{
    let fault = fault_of(stream, sheet);
    if fault.number != 0 {
        return Err(fault);
    }
    house_file::pack(stream, output)
}

// Loads a file: what it holds stands at the front of the store, and is read as held bytes. 130 to 133 refuse the file, and 1 a store that is
// shorter than what it holds; both leave store and tables as they were.
pub fn load_start(
    file: &[u8],
    store: &mut [u8],
    sheet: &[u16; 520],
    symbology: &mut [u32],
    layout: &mut [u32],
) -> Result<Held, Refusal>
    ensures { Loading file.now store.old sheet.now symbology.old layout.old result store.new symbology.new layout.new }
{
    let len = house_file::unpack(file, store)?;
    let fed = feed::feed(
        State { held: len },
        store,
        &file[0..0],
        sheet,
        symbology,
        layout,
    );
    let answer = fed.answer;
    Ok(Held { len, answer })
}

// What refuses the stream as a start that is whole; number 0 where nothing does.
fn fault_of(stream: &[u8], sheet: &[u16; 520]) -> Refusal
    ensures { result ≡ start_fault stream.now sheet.now }
{
    match stage_of(stream) {
        Ok(Holding::Needs(_)) => Refusal {
            number: refusal::HOUSE_NEEDS,
            place: 0,
        },
        Err(e) => e,
        Ok(Holding::Whole { len, kind: version }) => {
            let mut none = [0u32; 0];
            let mut nothing = [0u32; 0];
            match block::read_block(version, &stream[8..len], sheet, &mut none, &mut nothing) {
                Err(ReadError::Refused(e)) => e,
                Ok(_) => Refusal {
                    number: 0,
                    place: 0,
                },
                Err(
                    ReadError::Short {
                        symbology: _,
                        layout: _,
                    },
                ) => Refusal {
                    number: 0,
                    place: 0,
                },
            }
        }
    }
}

// What the stream is as the held bytes of a store that is long enough.
fn stage_of(stream: &[u8]) -> Result<Holding, Refusal>
    ensures { result ≡ start_stage stream.now }
{
    match prelude::prelude(stream)? {
        Stage::Needs(n) => Ok(Holding::Needs(n)),
        Stage::Whole { version, len } => {
            let rest = stream.len() - 8;
            if rest < len {
                return Ok(Holding::Needs(len - rest));
            }
            if len < rest {
                return held::refused(refusal::HELD_BEYOND);
            }
            Ok(Holding::Whole {
                len: stream.len(),
                kind: version,
            })
        }
    }
}
