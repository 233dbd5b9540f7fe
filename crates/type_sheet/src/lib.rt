// The type sheet that layouts are judged with: a made one, or one's own from a file.
#![tactic(auto)]

ghost use Rattle.std.specs.Prelude.{◌≡◌, OnErr};

use std::io;
use std::rt::Files;

// A file of a type sheet: 520 numbers of two bytes.
const SHEET_LEN: usize = 1040;

// Why a file gave no sheet: it could not be opened, and the error says why; or what could be read from it is not 1,040 bytes.
#[derive(Clone, Copy)]
pub enum LoadError {
    Unopened(io::Error),
    Unfit,
}

// A made type sheet: the crate's own is not at hand. 1, 2, 3 and 4 are numbers of 1, 2, 4 and 8 bytes, 5 is a decimal of 8 bytes,
// 7 a symbol, 8 a struct, 9 padding and 10 a label of one byte; bit 6 of the flags marks an extension, and a header is 16 bytes.
pub fn made() -> [u16; 520] {
    let mut sheet = [0u16; 520];
    sheet[1] = 1;
    sheet[2] = 2;
    sheet[3] = 4;
    sheet[4] = 8;
    sheet[5] = 8;
    sheet[9] = 1;
    sheet[10] = 1;
    sheet[266] = 1;
    sheet[512] = 8;
    sheet[513] = 7;
    sheet[514] = 5;
    sheet[515] = 9;
    sheet[516] = 64;
    sheet[517] = 65535;
    sheet[518] = 16;
    sheet
}

// Reads a sheet from the file of this path, which has nothing else. Where it cannot, the sheet stays as it was.
pub fn load<R: Files>(rt: &R, path: &[u8], sheet: &mut [u16; 520]) -> Result<(), LoadError>
    ensures { OnErr result (sheet.new ≡ sheet.old) }
{
    let mut file = reading::open(rt, path).map_err(LoadError::Unopened)?;
    let mut bytes = [0u8; 4096];
    match reading::read_full(&mut file, &mut bytes) {
        Ok(SHEET_LEN) => {
            take(&bytes, sheet);
            Ok(())
        }
        _ => Err(LoadError::Unfit),
    }
}

// The numbers at the front of the bytes.
fn take(bytes: &[u8; 4096], sheet: &mut [u16; 520]) {
    for i in 0..520 {
        sheet[i] = filled_numbers::u16_of(bytes, 2 * i) as u16;
    }
}
