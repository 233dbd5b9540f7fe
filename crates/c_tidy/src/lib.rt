// The C function that tells whether a layout is tidy. Nothing here but a call of the layer.
#![tactic(auto)]

ghost use Rattle.c_tidy.specs.Numbers.{TidyC};

// 0 where a layout given with a symbol width is tidy: it is the bytes that dbn_write_layout gives for the rows that it reads to, with its
// version. Else the reader's number, or the first of 120 to 123 in wire order, with the place in the layout at 13 of `out` where the number
// has one. All else in `out` is as it was.
pub fn dbn_tidy(layout: &[u8], width: u16, sheet: &[u16; 520], out: &mut [u64; 16]) -> u32
    ensures { TidyC layout.now width sheet.now out.old result out.new }
{
    match tidy::check_tidy(layout, width, sheet) {
        Ok(()) => 0,
        Err(e) => {
            c_texts::put_place(e, out);
            e.number
        }
    }
}
