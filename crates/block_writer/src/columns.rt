// The symbology, stored row by row.
ghost use Rattle.std.specs.Prelude.{cond, []};
ghost use Rattle.codec.specs.Codec.{little};
ghost use Rattle.put.specs.Output.{RoomFor, Wrote};
ghost use Rattle.block_format.specs.Block.{symbology_part};
ghost use Rattle.columns_check.specs.Tree.{symbology_of};
ghost use Rattle.columns_check.specs.PrintLaws.{printed_rows, printed_list_rows};
ghost use Rattle.block_writer.specs.Plan.{NamesReady, RowsReady};

use super::Plan;

// In version 4 the length of the section; then the lists symbols, partial, not found, and the mappings.
pub(crate) fn put_symbology(
    out: &mut [u8],
    at: usize,
    has: bool,
    names: usize,
    p: Plan,
    table: &[u32],
    count: usize,
    text: &[u8],
    width: usize,
) -> usize
    requires names_ready { NamesReady width table.now count text.now names p }
    requires room_for { RoomFor at ((symbology_part has width).codec.print (symbology_of width table.now count text.now)) out.old }
    ensures { Wrote at ((symbology_part has width).codec.print (symbology_of width table.now count text.now)) out.old out.new result }
{
    let a = put_length(out, at, has, names);
    let b = put_list(out, a, table, text, width, 0, p.symbols);
    let c = put_list(out, b, table, text, width, p.symbols, p.partial);
    let two = p.symbols + p.partial;
    let d = put_list(out, c, table, text, width, two, p.not_found);
    let e = put::put_little(out, d, p.mappings, 4);
    let lists = two + p.not_found;
    put_rows(out, e, table, text, width, lists, count - lists)
}

// In version 4 the length of what follows; below nothing.
fn put_length(out: &mut [u8], at: usize, has: bool, len: usize) -> usize
    requires { RoomFor at (cond has (little 4 len) []) out.old }
    ensures { Wrote at (cond has (little 4 len) []) out.old out.new result }
{
    if has {
        return put::put_little(out, at, len, 4);
    }
    at
}

// A count and that many symbols, from row `from` on.
fn put_list(
    out: &mut [u8],
    at: usize,
    table: &[u32],
    text: &[u8],
    width: usize,
    from: usize,
    n: usize,
) -> usize
    requires rows_ready { RowsReady width table.now text.now from n }
    requires room_for { RoomFor at (printed_list_rows width table.now text.now from n) out.old }
    ensures { Wrote at (printed_list_rows width table.now text.now from n) out.old out.new result }
{
    let a = put::put_little(out, at, n, 4);
    put_rows(out, a, table, text, width, from, n)
}

// n rows from row `from` on.
fn put_rows(
    out: &mut [u8],
    at: usize,
    table: &[u32],
    text: &[u8],
    width: usize,
    from: usize,
    n: usize,
) -> usize
    requires rows_ready { RowsReady width table.now text.now from n }
    requires room_for { RoomFor at (printed_rows width table.now text.now from n) out.old }
    ensures { Wrote at (printed_rows width table.now text.now from n) out.old out.new result }
{
    let mut a = at;
    for r in from..from + n {
        a = row_bytes::put_row(out, a, table, text, width, r);
    }
    a
}
