// The rules of a layout, numbers 60 to 83, over a layout's bytes or over rows.
#![tactic(auto)]

ghost use Rattle.std.specs.Prelude.{◌≡◌, true};
ghost use Rattle.layout.specs.Answers.{verdict};
ghost use Rattle.layout.specs.LayoutOf.{layout_of};
ghost use Rattle.rows_check.specs.Tree.{kinds};
ghost use Rattle.rows_check.specs.Check.{well_formed};
ghost use Rattle.codec.specs.Telling.{passed};
ghost use Rattle.rules.specs.Rules.{ruled_of};
ghost use Rattle.rules.specs.RowRules.{rows_rules, ruled_rows};
ghost use Rattle.rules.specs.LayoutRules.{rules_in};
ghost use Rattle.rules.specs.LayoutRules;

use item_rules::How;
use layout::{Accepted, ReadError};
use refusal::Refusal;
use rows_check::Size;

// The verdict on a layout given with a symbol width: 13, then the layout, then its rules. What it has, or the refusal.
// The answer is the same by either engine: where `by_marks` holds all of 81 to 83 are found by marks.
pub fn check_layout(
    layout: &[u8],
    width: u16,
    sheet: &[u16; 520],
    by_marks: bool,
) -> Result<Accepted, Refusal>
    ensures { result ≡ verdict (ruled_of sheet.now width layout.now) }
{
    let accepted = layout_verdict(layout)?;
    layout_rules(layout, sheet, width as usize, by_marks)?;
    Ok(accepted)
}

// The verdict on rows given with a symbol width, whose names are parts of the text: 90, where `whole` holds 91 to 95, then the rules of
// the layout that they stand for. What they make, its length 0 where `whole` does not hold; or the refusal. Either engine, as above.
pub fn check_rows(
    rows: &[u32],
    text: &[u8],
    whole: bool,
    width: u16,
    sheet: &[u16; 520],
    by_marks: bool,
) -> Result<Size, Refusal>
    ensures { result ≡ ruled_rows sheet.now width whole rows.now text.now }
{
    let size = rows_check::layout_size(rows, text, whole)?;
    let how = How {
        width: width as usize,
        labels: size.labels,
        by_marks,
    };
    formed_rules(rows, text, sheet, size.records, size.structs, how)?;
    Ok(size)
}

// The verdict on a layout before its rules.
fn layout_verdict(layout: &[u8]) -> Result<Accepted, Refusal>
    ensures { result ≡ verdict (layout_of layout.now) }
{
    let mut none = [0u32; 1];
    match layout::read_layout_rows(layout, false, &mut none) {
        Ok(accepted) => Ok(accepted),
        Err(ReadError::Short(accepted)) => Ok(accepted),
        Err(ReadError::Refused(why)) => Err(why),
    }
}

// The rules of an accepted layout: the first refusal that they give.
fn layout_rules(
    layout: &[u8],
    sheet: &[u16; 520],
    width: usize,
    by_marks: bool,
) -> Result<(), Refusal>
    requires { LayoutRules.Accepted layout.now }
    ensures { result ≡ passed (rules_in sheet.now width (layout_of layout.now)) }
{
    let none = [0u32; 1];
    let how = How {
        width,
        labels: 0,
        by_marks,
    };
    item_rules::check_items(sheet, layout, &none, false, 0, 0, how)
}

// The rules of well-formed rows with so many records, structs and label defs: the first refusal that they give.
fn formed_rules(
    rows: &[u32],
    text: &[u8],
    sheet: &[u16; 520],
    r: usize,
    s: usize,
    how: How,
) -> Result<(), Refusal>
    requires formed { well_formed rows.now text.now ≡ true }
    requires counts { (r ≡ kinds rows.now 10) × ((s ≡ kinds rows.now 13) × (how.labels ≡ kinds rows.now 14)) }
    ensures { result ≡ passed (rows_rules sheet.now how.width rows.now text.now) }
{
    let none = [0u8; 1];
    item_rules::check_items(sheet, &none, rows, true, r, s, how)
}
