// The layout of a block: records, structs and label defs, read into rows of nine.
#![tactic(auto)]

mod labels;
mod members;
mod rows;
mod sections;

ghost use Rattle.std.specs.Prelude.{◌≡◌};
ghost use Rattle.layout.specs.LayoutOf.{layout_by};
ghost use Rattle.wire.specs.Reader.{tests_of};
ghost use Rattle.layout.specs.Answers.{Answers, verdict};
ghost use Rattle.layout.specs.declared.ReadError.TheVariants.{Refused};

use refusal::Refusal;

// The bytes of a field entry on the wire, FIELD_DEF_LEN; the first eleven are read.
pub const D: usize = 16;

// What a section holds.
#[derive(Clone, Copy)]
enum Kind {
    Record,
    Struct,
    LabelDef,
}

// What an accepted layout has.
#[derive(Clone, Copy)]
pub struct Accepted {
    pub version: usize,
    pub rows: usize,
}

// Why no rows are written: the layout is refused; or it is accepted, and the table is short for its rows.
#[derive(Clone, Copy)]
pub enum ReadError {
    Refused(Refusal),
    Short(Accepted),
}

impl From<Refusal> for ReadError {
    ghost from_gives = { λ why e. e ≡ Refused why };

    fn from(why: Refusal) -> ReadError {
        ReadError::Refused(why)
    }
}

// The rows of a layout in the table, which is written only where all is accepted and it is long enough.
pub fn read_layout_rows(
    layout: &[u8],
    light: bool,
    table: &mut [u32],
) -> Result<Accepted, ReadError>
    ensures { Answers light layout.now table.old table.new result }
{
    let accepted = layout_verdict(layout, light)?;
    if table.len() / 9 < accepted.rows {
        return Err(ReadError::Short(accepted));
    }
    let _ = sections::groups(layout, 2, light, table);
    Ok(accepted)
}

// The verdict on a layout: what it has, or the refusal.
fn layout_verdict(layout: &[u8], light: bool) -> Result<Accepted, Refusal>
    ensures { result ≡ verdict (layout_by (tests_of light) layout.now) }
{
    if layout.len() > 4294967295 {
        return refusal::refuse(refusal::SIZE, 0);
    }
    let (version, next) = numbers::u16_at(layout, 0, refusal::LAYOUT_TRUNCATED)?;
    let (rows, _) = sections::groups(layout, next, light, &mut [0u32; 1])?;
    Ok(Accepted { version, rows })
}
