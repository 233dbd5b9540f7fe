// Entries one by one, from a layout's bytes or from rows.
ghost use Rattle.std.specs.Prelude.{◌≡◌, ◌+◌, ◌*◌, ◌<◌};
ghost use Rattle.item_rules.specs.Entries.{entry_of, rest_of, InSlice};

use crate::Source;

// The first entry of a source that has one.
pub(crate) fn entry_at(layout: &[u8], rows: &[u32], src: Source) -> [u8; 11]
    requires in_slice { InSlice layout.now rows.now src }
    requires count_nonzero { 0 < src.count }
    ensures { result ≡ entry_of layout.now rows.now src }
{
    let at = src.at;
    if src.rows {
        let end = at + 9;
        return entry::row_bytes(&rows[at..end], 0);
    }
    let end = at + 11;
    entry::entry_bytes(&layout[at..end], 0)
}

// The entries after the first.
pub(crate) fn rest(src: Source) -> Source
    requires { (0 < src.count) × (src.at + src.step * src.count < 18446744073709551616) }
    ensures { result ≡ rest_of src }
{
    Source {
        rows: src.rows,
        step: src.step,
        at: src.at + src.step,
        count: src.count - 1,
    }
}
