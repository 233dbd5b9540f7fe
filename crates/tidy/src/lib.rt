// Whether a layout is in the plain form that the writer gives: read, ruled on, and then looked at for the first untidy thing.
#![tactic(auto)]

mod walk;

ghost use Rattle.std.specs.Prelude.{◌≡◌};
ghost use Rattle.tidy.specs.Tidy.{tidy_of};

use refusal::Refusal;

// Whether a layout given with a symbol width is the bytes that the writer gives for the rows that it reads to, with the same
// version: 13, the layout, its rules; then the first of 120 to 123 in wire order, and its place.
pub fn check_tidy(layout: &[u8], width: u16, sheet: &[u16; 520]) -> Result<(), Refusal>
    ensures { result ≡ tidy_of sheet.now width layout.now }
{
    engines::check_layout(layout, width, sheet)?;
    walk::layout_met(layout)?;
    Ok(())
}
