// Blocks of versions 1 to 4: their fields, and their rows in two lent tables.
#![tactic(auto)]

mod header;
mod parts;

ghost use Rattle.std.specs.Prelude.{◌≡◌, Result, Err};
ghost use Rattle.codec.specs.Codec.{refusal, whole};
ghost use Rattle.block_format.specs.Block as Block;
ghost use Rattle.block_format.specs.Read.{Promise};
ghost use Rattle.block.specs.Parts.{Headed, Does};

pub use block_format::{Fields, ReadError};
pub use metadata_lengths::{MetadataLengths, lengths_of};
use refusal::Refusal;
use symbology::Section;

// The layout part: its version, its rows and the place after it.
#[derive(Clone, Copy)]
struct LayoutFound {
    version: usize,
    rows: usize,
    end: usize,
}

// A block given whole with its version: 11, 13, the block, then 3. A refusal's place counts from the block, and 3 for the version,
// which stands there in the prelude. The tables are written only where all is accepted and both
// are long enough; rows past the last stay as they were.
pub fn read_block(
    version: u8,
    block: &[u8],
    sheet: &[u16; 520],
    symbology: &mut [u32],
    layout: &mut [u32],
) -> Result<Fields, ReadError>
    ensures { Promise version block.now sheet.now symbology.old layout.old result symbology.new layout.new }
{
    if !prelude::is_version(version) {
        return Err(ReadError::Refused(Refusal {
            number: refusal::VERSION,
            place: 3,
        }));
    }
    if block.len() < 100 || 4294967295 < block.len() {
        return Err(ReadError::Refused(Refusal {
            number: refusal::SIZE,
            place: 0,
        }));
    }
    let v = metadata_lengths::lengths_of(version);
    header::check_header(block, v)?;
    let width = header::symbol_width(block, v);
    read_body(block, v, width, sheet, symbology, layout)
}

// What follows an accepted header: layout and symbology, then 3 for a table that is short, then the rows.
fn read_body(
    block: &[u8],
    v: MetadataLengths,
    width: u16,
    sheet: &[u16; 520],
    symbology: &mut [u32],
    layout: &mut [u32],
) -> Result<Fields, ReadError>
    requires { Headed v block.now width }
    ensures { Does v (whole (Block.block sheet.now v).codec 0 block.now) symbology.old layout.old result symbology.new layout.new }
{
    let has_layout = v.has_layout;
    let found = parts::layout_part(block, has_layout, width, sheet)?;
    let nines = found.rows;
    let write = nines <= layout.len() / 9;
    match parts::symbology_part(block, found.end, has_layout, width, write, symbology)? {
        Section::Read {
            rows: sixes,
            next: _,
        } => {
            parts::put_layout(block, has_layout, found.end, layout);
            Ok(header::fields_of(block, v, found.version, sixes, nines))
        }
        Section::Counted(sixes) => Err(ReadError::Short {
            symbology: sixes,
            layout: nines,
        }),
    }
}
