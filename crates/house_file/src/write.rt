// Blocks, stored one after the other.
ghost use Rattle.std.specs.Prelude.{◌+◌, ◌*◌, ◌≤◌, ◌<◌, length};
ghost use Rattle.codec.specs.Codec.{times_print};
ghost use Rattle.put.specs.Output.{RoomFor, Wrote};
ghost use Rattle.house_file.specs.House.{block, sealed, blocks_from};
ghost use Rattle.house_file.specs.PackLaws.{body};

// Stores the bytes of s as n blocks, and answers how long they are.
pub(crate) fn put_blocks(out: &mut [u8], s: &[u8], n: usize) -> usize
    requires blocks { (504 * n < length s.now + 504) × (length s.now ≤ 504 * n) × (n ≤ 65536) }
    requires room { 512 * n ≤ length out.old }
    ensures { Wrote 0 (times_print block.codec (blocks_from n 0 s.now)) out.old out.new result }
{
    let mut at = 0;
    for (index, part) in s.chunks(504).enumerate() {
        at = put_block(out, at, index, part);
    }
    at
}

// Stores a block of these bytes: zeros after them, then the check words of all that stands before.
fn put_block(out: &mut [u8], at: usize, index: usize, part: &[u8]) -> usize
    requires { (length part.now ≤ 504) × (at + 512 ≤ length out.old) }
    ensures { Wrote at (block.codec.print (sealed index part.now)) out.old out.new result }
{
    let end = put_body(out, at, index, part);
    let t = sums::sums_of(&out[at..end]);
    let next = put::put_little(out, end, t.a, 2);
    put::put_little(out, next, t.b, 2)
}

// Stores what stands before the check words: 508 bytes.
fn put_body(out: &mut [u8], at: usize, index: usize, part: &[u8]) -> usize
    requires { (length part.now ≤ 504) × (at + 508 ≤ length out.old) }
    ensures { Wrote at (body index part.now) out.old out.new result }
{
    let a = put::put_little(out, at, index, 2);
    let b = put::put_little(out, a, part.len(), 2);
    let c = put::put_bytes(out, b, part);
    put::put_zeros(out, c, 504 - part.len())
}
