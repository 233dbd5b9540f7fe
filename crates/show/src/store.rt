// Room for what is read, and for its rows: arrays, so that no heap is needed.
ghost use Rattle.std.specs.Prelude.{length, ◌≡◌};

// Room for a stream's start, or for a layout.
pub(crate) fn space() -> [u8; 1048576]
    ensures { 1048576 ≡ length result }
{
    [0; 1048576]
}

// A table of 16,384 rows of six, by column.
pub(crate) fn symbology_table() -> [u32; 98304]
    ensures { 98304 ≡ length result }
{
    [0; 98304]
}

// A table of 16,384 rows of nine.
pub(crate) fn layout_table() -> [u32; 147456]
    ensures { 147456 ≡ length result }
{
    [0; 147456]
}
