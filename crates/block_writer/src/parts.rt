// The prelude and the layout, stored.
ghost use Rattle.put.specs.Output.{RoomFor, Wrote};
ghost use Rattle.block_format.specs.Block.{layout_part};
ghost use Rattle.header_bytes.specs.Numbers.{width};
ghost use Rattle.block_writer.specs.Tree.{prelude_bytes, layout_tree};
ghost use Rattle.block_writer.specs.Plan.{LayoutReady};

// The eight bytes before a block of this length.
pub(crate) fn put_prelude(out: &mut [u8], version: u8, len: usize) -> usize
    requires { RoomFor 0 (prelude_bytes version len) out.old }
    ensures { Wrote 0 (prelude_bytes version len) out.old out.new result }
{
    let a = put::put_bytes(out, 0, &[b'D', b'B', b'N', version]);
    put::put_little(out, a, len, 4)
}

// The length of the layout and, in version 4, its bytes.
pub(crate) fn put_layout(
    out: &mut [u8],
    at: usize,
    has: bool,
    fields: &[u64; 16],
    rows: &[u32],
    text: &[u8],
    sheet: &[u16; 520],
    len: usize,
) -> usize
    requires layout_ready { LayoutReady has sheet.now fields.now rows.now text.now len }
    requires room_for { RoomFor at ((layout_part has sheet.now (width fields.now)).codec.print (layout_tree has fields.now rows.now text.now)) out.old }
    ensures { Wrote at ((layout_part has sheet.now (width fields.now)).codec.print (layout_tree has fields.now rows.now text.now)) out.old out.new result }
{
    let after = put::put_little(out, at, len, 4);
    if has {
        let _ = writer::write_layout(
            rows,
            text,
            fields[9] as u16,
            fields[8] as u16,
            sheet,
            &mut out[after..],
        );
        return after + len;
    }
    after
}
