// The text of a row, by its kind, start and length: a part of the bytes that the row was read from.
#![tactic(auto)]

ghost use Rattle.std.specs.Prelude.{◌≡◌, ◌<◌, length};
ghost use Rattle.names.specs.Names.{no_text, symbol_text, item_text, text_span, symbology_span, layout_span, part_in};

use refusal::Refusal;

// A part of a slice by start and length.
#[derive(Clone, Copy)]
pub struct Span {
    pub start: usize,
    pub len: usize,
}

// Where the text of a symbology row stands in its block. The table is as it was lent, by column. 90 for an index past its height, a row
// without a text, or a span outside.
pub fn symbology_span(block: &[u8], table: &[u32], index: usize) -> Result<Span, Refusal>
    ensures { result ≡ symbology_span (length block.now) table.now index }
{
    let height = table.len() / 6;
    if index < height {
        let second = index + height;
        let third = second + height;
        return text_span(
            symbol_text(table[index]),
            block.len(),
            table[second],
            table[third],
        );
    }
    no_text()
}

// The text of a symbology row as a part of the caller's own block; empty where there is none.
pub fn symbology_name<'a>(block: &'a [u8], table: &[u32], index: usize) -> &'a [u8]
    ensures { result.now ≡ part_in block.now (symbology_span (length block.now) table.now index) }
{
    part(block, symbology_span(block, table, index))
}

// Where the text of a layout row stands in its layout; 90 as for a symbology row. A field has none.
pub fn layout_span(layout: &[u8], rows: &[u32], index: usize) -> Result<Span, Refusal>
    ensures { result ≡ layout_span (length layout.now) rows.now index }
{
    if index < rows.len() / 9 {
        let at = 9 * index;
        return text_span(
            item_text(rows[at]),
            layout.len(),
            rows[at + 1],
            rows[at + 2],
        );
    }
    no_text()
}

// The text of a layout row as a part of the caller's own layout; empty where there is none.
pub fn layout_name<'a>(layout: &'a [u8], rows: &[u32], index: usize) -> &'a [u8]
    ensures { result.now ≡ part_in layout.now (layout_span (length layout.now) rows.now index) }
{
    part(layout, layout_span(layout, rows, index))
}

// The bytes of a span; none for a refusal or a span outside.
fn part<'a>(s: &'a [u8], span: Result<Span, Refusal>) -> &'a [u8]
    ensures { result.now ≡ part_in s.now span }
{
    match span {
        Ok(Span { start, len }) => {
            if s.len() < start {
                return &[];
            }
            if s.len() - start < len {
                return &[];
            }
            let end = start + len;
            &s[start..end]
        }
        Err(_) => &[],
    }
}

// Whether a symbology row of this kind has a text.
fn symbol_text(kind: u32) -> bool
    ensures { result ≡ symbol_text kind }
{
    kind <= 4
}

// Whether a layout row of this kind has a text: a field has none.
fn item_text(kind: u32) -> bool
    ensures { result ≡ item_text kind }
{
    matches!(kind, 10 | 12..=15)
}

// This start and length, where the row has a text and they lie in n bytes.
fn text_span(has: bool, n: usize, start: u32, len: u32) -> Result<Span, Refusal>
    ensures { result ≡ text_span has n start len }
{
    if has {
        let start = wide(start);
        let len = wide(len);
        if start + len <= n {
            return Ok(Span { start, len });
        }
        return no_text();
    }
    no_text()
}

// 90, for what has no text.
fn no_text() -> Result<Span, Refusal>
    ensures { result ≡ no_text }
{
    refusal::refuse(refusal::ROWS_MALFORMED, 0)
}

fn wide(x: u32) -> usize
    ensures { (result ≡ x) × (result < 4294967296) }
{
    x as usize
}
