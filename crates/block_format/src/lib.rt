// The block of versions 1 to 4: its format, what it gives, and their laws, in specs/. Of code there are the types alone.
#![tactic(auto)]

ghost use Rattle.std.specs.Prelude.{◌≡◌};
ghost use Rattle.block_format.specs.declared.ReadError.{ReadError};

use refusal::Refusal;

// What an accepted block says besides its rows.
#[derive(Clone, Copy)]
pub struct Fields {
    pub dataset_len: usize,
    pub schema: Option<u64>,
    pub start: u64,
    pub end: Option<u64>,
    pub limit: Option<u64>,
    pub stype_in: Option<u64>,
    pub stype_out: u8,
    pub ts_out: bool,
    pub symbol_cstr_len: usize,
    pub layout_version: usize,
    pub symbology_rows: usize,
    pub layout_rows: usize,
}

// Why a block isn't read: it is refused, or a table is short, with the rows that both need.
#[derive(Clone, Copy)]
pub enum ReadError {
    Refused(Refusal),
    Short { symbology: usize, layout: usize },
}

impl From<Refusal> for ReadError {
    ghost from_gives = { λ e r. r ≡ ReadError.Refused e };

    fn from(e: Refusal) -> ReadError {
        ReadError::Refused(e)
    }
}
