// The C functions of include/dbn_start.h, exported. Each calls the function of its name and promises what that one promises.
#![tactic(auto)]

ghost use Rattle.std.specs.Prelude.{◌≡◌, length};
ghost use Rattle.text.specs.Utf8.{utf8};
ghost use Rattle.dates.specs.Day.{day_on, date_on};
ghost use Rattle.c_texts.specs.Numbers.{bit, calendar_number, calendar_out};
ghost use Rattle.names.specs.Names.{symbology_span, layout_span, span_number};
ghost use Rattle.c_names.specs.Numbers.{span_out};
ghost use Rattle.prelude.specs.Prelude.{prelude_of, stage_number};
ghost use Rattle.c_prelude.specs.Numbers.{prelude_out};
ghost use Rattle.c_start.specs.Numbers.{BlockC, FeedC};
ghost use Rattle.c_frames.specs.Numbers.{FrameC};
ghost use Rattle.c_layout.specs.Numbers.{LayoutC, LayoutPlainC, WriteC};
ghost use Rattle.c_tidy.specs.Numbers.{TidyC};
ghost use Rattle.c_write.specs.Numbers.{WriteBlockC};
ghost use Rattle.c_house.specs.Numbers.{StoreC, LoadC};

// 1 where the bytes are UTF-8, else 0.
#[unsafe(no_mangle)]
pub extern "C" fn dbn_text(s: &[u8]) -> u32
    ensures { result ≡ bit (utf8 s.now) }
{
    c_texts::dbn_text(s)
}

// 1 where the number is a date, year x 10000 + month x 100 + day, with the number of its day in `out`; else 0 and `out` as it was.
#[unsafe(no_mangle)]
pub extern "C" fn dbn_date(yyyymmdd: u32, out: &mut [u64; 1]) -> u32
    ensures { (result ≡ calendar_number (day_on yyyymmdd)) × (out.new ≡ calendar_out (day_on yyyymmdd) out.old) }
{
    c_texts::dbn_date(yyyymmdd, out)
}

// 1 where there is a day of this number, with its date in `out`; else 0 and `out` as it was.
#[unsafe(no_mangle)]
pub extern "C" fn dbn_day(day: u32, out: &mut [u64; 1]) -> u32
    ensures { (result ≡ calendar_number (date_on day)) × (out.new ≡ calendar_out (date_on day) out.old) }
{
    c_texts::dbn_day(day, out)
}

// The text of a symbology row, as a part of the block: 0 with {start, length}, or 90 with {0, 0}.
#[unsafe(no_mangle)]
pub extern "C" fn dbn_symbology_name(
    block: &[u8],
    rows: &[u32],
    index: u64,
    out: &mut [u64; 2],
) -> u32
    ensures { (result ≡ span_number (symbology_span (length block.now) rows.now index)) × (out.new ≡ span_out (symbology_span (length block.now) rows.now index)) }
{
    c_names::dbn_symbology_name(block, rows, index, out)
}

// The text of a layout row, as a part of the layout: 0 with {start, length}, or 90 with {0, 0}.
#[unsafe(no_mangle)]
pub extern "C" fn dbn_layout_name(
    layout: &[u8],
    rows: &[u32],
    index: u64,
    out: &mut [u64; 2],
) -> u32
    ensures { (result ≡ span_number (layout_span (length layout.now) rows.now index)) × (out.new ≡ span_out (layout_span (length layout.now) rows.now index)) }
{
    c_names::dbn_layout_name(layout, rows, index, out)
}

// The verdict on a prelude: 10, 11, 12 with the place at 3, the rest of `out` as it was, or 0 with {missing, 0, 0, 0} below eight bytes and
// {0, version, block length, 0} from eight on.
#[unsafe(no_mangle)]
pub extern "C" fn dbn_prelude(s: &[u8], out: &mut [u64; 4]) -> u32
    ensures { (result ≡ stage_number (prelude_of s.now)) × (out.new ≡ prelude_out (prelude_of s.now) out.old) }
{
    c_prelude::dbn_prelude(s, out)
}

// Reads a block given whole: its rows go into the tables, its fields into `out`. With 3 the rows needed are at 10 and 11; a refusal from
// reading has its place at 13, counted from the block, and 3 for the version, which stands there in the prelude.
#[unsafe(no_mangle)]
pub extern "C" fn dbn_block(
    version: u8,
    block: &[u8],
    sheet: &[u16; 520],
    symbology: &mut [u32],
    layout: &mut [u32],
    out: &mut [u64; 16],
) -> u32
    ensures { BlockC version block.now sheet.now symbology.old layout.old out.old result symbology.new layout.new out.new }
{
    c_start::dbn_block(version, block, sheet, symbology, layout, out)
}

// Feeds a piece after `held` bytes of the store. `out` gets the count taken at 16, the new held count at 17 and the count needed at 18;
// when the block is done the first sixteen are as those of dbn_block, and with 3 the rows needed are at 10 and 11. A refusal
// from reading has its place at 13, counted from the prelude for 10 to 12 and else from the block.
#[unsafe(no_mangle)]
pub extern "C" fn dbn_feed(
    held: u64,
    store: &mut [u8],
    piece: &[u8],
    sheet: &[u16; 520],
    symbology: &mut [u32],
    layout: &mut [u32],
    out: &mut [u64; 20],
) -> u32
    ensures { FeedC held store.old piece.now sheet.now symbology.old layout.old out.old result store.new symbology.new layout.new out.new }
{
    c_start::dbn_feed(held, store, piece, sheet, symbology, layout, out)
}

// A piece of the records comes after the first `held` bytes of the store, 0 for a new frame. `out` has the count taken at 0, the count then
// held at 1 and the count still needed at 2, which is 0 with a frame or a refusal; a frame also has its length at 3 and its rtype at 4.
#[unsafe(no_mangle)]
pub extern "C" fn dbn_frame(held: u64, store: &mut [u8], piece: &[u8], out: &mut [u64; 5]) -> u32
    ensures { FrameC held store.old piece.now out.old result store.new out.new }
{
    c_frames::dbn_frame(held, store, piece, out)
}

// Reads a layout given with a symbol width, its rows into the table. `out` gets the version at 9 and the rows at 11; with 3 the rows
// needed at 11; with 50 to 55 the place in the layout at 13. All else in `out` is as it was.
#[unsafe(no_mangle)]
pub extern "C" fn dbn_layout(
    layout: &[u8],
    width: u16,
    sheet: &[u16; 520],
    rows: &mut [u32],
    out: &mut [u64; 16],
) -> u32
    ensures { LayoutC layout.now width sheet.now rows.old out.old result rows.new out.new }
{
    c_layout::dbn_layout(layout, width, sheet, rows, out)
}

// The verdict on a layout given with a symbol width, with 81 to 83 by the plain engine: the answer of dbn_layout, without a table.
// `out` gets the version at 9 and the rows at 11, or with 50 to 55 the place in the layout at 13.
#[unsafe(no_mangle)]
pub extern "C" fn dbn_layout_plain(
    layout: &[u8],
    width: u16,
    sheet: &[u16; 520],
    out: &mut [u64; 16],
) -> u32
    ensures { LayoutPlainC layout.now width sheet.now out.old result out.new }
{
    c_layout::dbn_layout_plain(layout, width, sheet, out)
}

// Writes layout rows, whose names are parts of the text, as a layout of a version; `out` gets the length written at 0.
#[unsafe(no_mangle)]
pub extern "C" fn dbn_write_layout(
    rows: &[u32],
    text: &[u8],
    version: u16,
    width: u16,
    sheet: &[u16; 520],
    output: &mut [u8],
    out: &mut [u64; 16],
) -> u32
    ensures { WriteC rows.now text.now version width sheet.now output.old out.old result output.new out.new }
{
    c_layout::dbn_write_layout(rows, text, version, width, sheet, output, out)
}

// 0 where a layout given with a symbol width is tidy: it is the bytes that dbn_write_layout gives for the rows that it reads to, with its
// version. Else the reader's number, or the first of 120 to 123 in wire order, with the place in the layout at 13 of `out` where the number
// has one. All else in `out` is as it was.
#[unsafe(no_mangle)]
pub extern "C" fn dbn_tidy(
    layout: &[u8],
    width: u16,
    sheet: &[u16; 520],
    out: &mut [u64; 16],
) -> u32
    ensures { TidyC layout.now width sheet.now out.old result out.new }
{
    c_tidy::dbn_tidy(layout, width, sheet, out)
}

// Writes prelude and block from fields, `rows` symbology rows by column, layout rows and a text; `out` gets the length written at 0. A
// refusal leaves the output and `out` as they were.
#[unsafe(no_mangle)]
pub extern "C" fn dbn_write_block(
    version: u8,
    fields: &[u64; 16],
    symbology: &[u32],
    rows: u64,
    layout: &[u32],
    text: &[u8],
    sheet: &[u16; 520],
    output: &mut [u8],
    out: &mut [u64; 16],
) -> u32
    ensures { WriteBlockC version fields.now symbology.now rows layout.now text.now sheet.now output.old out.old result output.new out.new }
{
    c_write::dbn_write_block(
        version, fields, symbology, rows, layout, text, sheet, output, out,
    )
}

// Stores the start of a stream, prelude and block, as a house file: `out` gets the length written at 0. A refusal leaves the output as it
// was, and tells its place at 13 of `out` where its number has one, counted as dbn_feed counts it.
#[unsafe(no_mangle)]
pub extern "C" fn dbn_house_store(
    stream: &[u8],
    sheet: &[u16; 520],
    output: &mut [u8],
    out: &mut [u64; 16],
) -> u32
    ensures { StoreC stream.now sheet.now output.old out.old result output.new out.new }
{
    c_house::dbn_house_store(stream, sheet, output, out)
}

// Loads a house file: what it holds stands at the front of the store, and `out` and the tables are as dbn_feed leaves them with nothing
// taken. Where bytes are still needed the number is 134, and the count needed stands at 18. A file that is refused, and 1 for a store that
// is too short for what it holds, leave everything as it was.
#[unsafe(no_mangle)]
pub extern "C" fn dbn_house_load(
    file: &[u8],
    store: &mut [u8],
    sheet: &[u16; 520],
    symbology: &mut [u32],
    layout: &mut [u32],
    out: &mut [u64; 20],
) -> u32
    ensures { LoadC file.now store.old sheet.now symbology.old layout.old out.old result store.new symbology.new layout.new out.new }
{
    c_house::dbn_house_load(file, store, sheet, symbology, layout, out)
}
