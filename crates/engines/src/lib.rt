// The rules of a layout by either engine for 81 to 83: the search for the field at the cursor, and the plain one, which marks
// each place of a record with its owner. Each pair makes the same promise, so its answers are equal.
#![tactic(auto)]

ghost use Rattle.std.specs.Prelude.{◌≡◌, false};
ghost use Rattle.layout.specs.Answers.{verdict};
ghost use Rattle.codec.specs.Telling.{passed};
ghost use Rattle.rules.specs.Rules.{ruled_of};
ghost use Rattle.rules.specs.RowRules.{rows_fault};

use layout::Accepted;
use refusal::Refusal;

// The verdict on a layout given with a symbol width: 13, then the layout, then its rules. What it has, or the
// refusal. By search; a record or a struct whose search takes too long is marked.
pub fn check_layout(layout: &[u8], width: u16, sheet: &[u16; 520]) -> Result<Accepted, Refusal>
    ensures { result ≡ verdict (ruled_of sheet.now width layout.now) }
{
    rules::check_layout(layout, width, sheet, false)
}

// The same, with every record and every struct marked.
pub fn check_layout_plain(
    layout: &[u8],
    width: u16,
    sheet: &[u16; 520],
) -> Result<Accepted, Refusal>
    ensures { result ≡ verdict (ruled_of sheet.now width layout.now) }
{
    rules::check_layout(layout, width, sheet, true)
}

// The verdict on rows given with a symbol width, whose names are parts of the text: 90 where they are malformed, then the first
// refusal that the rules of their layout give. By search; a record or a struct whose search takes too long is marked.
pub fn check_rows(rows: &[u32], text: &[u8], width: u16, sheet: &[u16; 520]) -> Result<(), Refusal>
    ensures { result ≡ passed (rows_fault sheet.now width false rows.now text.now) }
{
    rules::check_rows(rows, text, false, width, sheet, false)?;
    Ok(())
}

// The same, with every record and every struct marked.
pub fn check_rows_plain(
    rows: &[u32],
    text: &[u8],
    width: u16,
    sheet: &[u16; 520],
) -> Result<(), Refusal>
    ensures { result ≡ passed (rows_fault sheet.now width false rows.now text.now) }
{
    rules::check_rows(rows, text, false, width, sheet, true)?;
    Ok(())
}
