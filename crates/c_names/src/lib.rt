// C functions for the text of a row. Nothing here but calls of the layers.
#![tactic(auto)]

ghost use Rattle.std.specs.Prelude.{◌≡◌, length};
ghost use Rattle.names.specs.Names.{symbology_span, layout_span, span_number};
ghost use Rattle.c_names.specs.Numbers.{span_out};

use names::Span;
use refusal::Refusal;

// The text of a symbology row, as a part of the block: 0 with {start, length}, or 90 with {0, 0}.
pub fn dbn_symbology_name(block: &[u8], rows: &[u32], index: u64, out: &mut [u64; 2]) -> u32
    ensures { (result ≡ span_number (symbology_span (length block.now) rows.now index)) × (out.new ≡ span_out (symbology_span (length block.now) rows.now index)) }
{
    put_span(names::symbology_span(block, rows, index as usize), out)
}

// The text of a layout row, as a part of the layout: 0 with {start, length}, or 90 with {0, 0}.
pub fn dbn_layout_name(layout: &[u8], rows: &[u32], index: u64, out: &mut [u64; 2]) -> u32
    ensures { (result ≡ span_number (layout_span (length layout.now) rows.now index)) × (out.new ≡ span_out (layout_span (length layout.now) rows.now index)) }
{
    put_span(names::layout_span(layout, rows, index as usize), out)
}

// What a span gives: its number, and its start and length in `out`.
fn put_span(span: Result<Span, Refusal>, out: &mut [u64; 2]) -> u32
    ensures { (result ≡ span_number span) × (out.new ≡ span_out span) }
{
    match span {
        Ok(Span { start, len }) => {
            *out = [start as u64, len as u64];
            0
        }
        Err(e) => {
            *out = [0, 0];
            e.number
        }
    }
}
