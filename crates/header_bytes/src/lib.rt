// The header of a block, stored from the numbers of its fields and its dataset's text.
#![tactic(auto)]

ghost use Rattle.std.specs.Prelude.{◌≡◌, cond, ◌≤◌, ◌<◌, length, get_or};
ghost use Rattle.put.specs.Output.{RoomFor, Wrote, Stored};
ghost use Rattle.metadata_lengths.specs.Lengths.{lengths};
ghost use Rattle.block_format.specs.Block.{header};
ghost use Rattle.header_bytes.specs.Numbers.{has};
ghost use Rattle.header_bytes.specs.Header.{header_of, header_bytes};

// The hundred bytes of the header, from `at` on; the place after them. Where they run past the end of the output, or the dataset is wider
// than its field, nothing is stored and the answer is the place given.
pub fn put_header(
    out: &mut [u8],
    at: usize,
    version: u8,
    fields: &[u64; 16],
    dataset: &[u8],
) -> usize
    ensures { Stored at (header_bytes version fields.now dataset.now) out.old out.new result }
{
    if metadata_lengths::lengths_of(version).dataset_cstr_len < dataset.len() {
        return at;
    }
    if out.len() < 100 {
        return at;
    }
    if out.len() - 100 < at {
        return at;
    }
    store_header(out, at, version, fields, dataset)
}

// The dataset with NULs after it, the numbers, and the reserved bytes.
fn store_header(out: &mut [u8], at: usize, version: u8, fields: &[u64; 16], dataset: &[u8]) -> usize
    requires dataset_len_bound { length dataset.now ≤ (lengths version).dataset_cstr_len }
    requires room_for { RoomFor at ((header (lengths version)).codec.print (header_of version fields.now dataset.now)) out.old }
    ensures { Wrote at ((header (lengths version)).codec.print (header_of version fields.now dataset.now)) out.old out.new result }
{
    let v = metadata_lengths::lengths_of(version);
    let z = put::put_bytes(out, at, dataset);
    let a = put::put_zeros(out, z, v.dataset_cstr_len - dataset.len());
    let b = put::put_little(out, a, stored(fields, 1, 1, 65535), 2);
    let c = put::put_little(out, b, fields[2] as usize, 8);
    let d = put::put_little(out, c, stored(fields, 2, 3, 18446744073709551615), 8);
    let e = put::put_little(out, d, fields[4] as usize, 8);
    let f = put::put_little(out, e, 18446744073709551615, v.record_count_len);
    let g = put::put_little(out, f, stored(fields, 8, 5, 255), 1);
    let h = put::put_little(out, g, fields[6] as usize, 1);
    let i = put::put_little(out, h, fields[7] as usize, 1);
    let j = put::put_little(out, i, fields[8] as usize, v.symbol_cstr_len_len);
    put::put_zeros(out, j, v.reserved_len)
}

// Field i, or `absent` where its presence bit is not set.
fn stored(fields: &[u64; 16], bit: u64, i: usize, absent: usize) -> usize
    requires { (0 < bit) × (i < 16) }
    ensures { result ≡ cond (has bit fields.now) (get_or fields.now i 0) absent }
{
    if fields[12] / bit % 2 == 1 {
        return fields[i] as usize;
    }
    absent
}
