// A layout given by itself, with a symbol width: read, ruled on, and its rows in a lent table.
#![tactic(auto)]

ghost use Rattle.given_layout.specs.Ruled.{Ruled};

use layout::{Accepted, ReadError};

// A layout given with a symbol width: 13, the layout, its rules, then 3. The rows are read without a second look at the names' texts. The table is written only where all is accepted and it
// is long enough.
pub fn read_layout(
    layout: &[u8],
    width: u16,
    sheet: &[u16; 520],
    table: &mut [u32],
) -> Result<Accepted, ReadError>
    ensures { Ruled layout.now width sheet.now table.old table.new result }
{
    engines::check_layout(layout, width, sheet)?;
    layout::read_layout_rows(layout, true, table)
}
