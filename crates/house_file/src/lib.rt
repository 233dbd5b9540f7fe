// The house file: bytes kept in blocks of 512. A block has its index, its count of used bytes, 504 bytes of payload and two check words.
#![tactic(auto)]

mod read;
mod write;

ghost use Rattle.std.specs.Prelude.{◌≡◌, true, length};
ghost use Rattle.house_file.specs.House.{is_length, Unpacking, Packing};

use refusal::Refusal;

// The bytes that a file holds, at the front of the store; answers how many they are. Refused by 130 for the file's length; then by block by
// 131 for its check words, 132 for its index, 133 for its used count or its filler; by 1 where the store is shorter than the bytes. A refusal
// is about no byte, and leaves the store as it was.
pub fn unpack(file: &[u8], store: &mut [u8]) -> Result<usize, Refusal>
    ensures { Unpacking file.now store.old result store.new }
{
    if is_length(file.len()) {
        return unpack_blocks(file, store);
    }
    refusal::refuse(refusal::HOUSE_LENGTH, 0)
}

// The file of the bytes s, at the front of the output; answers its length. 130 where there is none, which is so for no bytes and for more
// than 65,536 blocks; 112 where the output is shorter than the file. A refusal is about no byte, and leaves the output as it was.
pub fn pack(s: &[u8], output: &mut [u8]) -> Result<usize, Refusal>
    ensures { Packing s.now output.old result output.new }
{
    let len = s.len();
    if len < 1 {
        return refusal::refuse(refusal::HOUSE_LENGTH, 0);
    }
    if 33030144 < len {
        return refusal::refuse(refusal::HOUSE_LENGTH, 0);
    }
    let n = (len + 503) / 504;
    if output.len() < 512 * n {
        return refusal::refuse(refusal::START_OUTPUT_SHORT, 0);
    }
    Ok(write::put_blocks(output, s, n))
}

// Whether a file can have this length: of 512, not zero, of at most 65,536 blocks.
fn is_length(len: usize) -> bool
    ensures { result ≡ is_length len }
{
    len % 512 == 0 && 1 <= len && len <= 33554432
}

// The same for a file whose length is that of blocks.
fn unpack_blocks(file: &[u8], store: &mut [u8]) -> Result<usize, Refusal>
    requires { is_length (length file.now) ≡ true }
    ensures { Unpacking file.now store.old result store.new }
{
    let n = file.len() / 512;
    read::judge(file, n)?;
    let len = 504 * (n - 1) + filled_numbers::u16_of(file, 512 * (n - 1) + 2);
    if store.len() < len {
        return refusal::refuse(refusal::HELD_BEYOND, 0);
    }
    Ok(read::put_payload(store, file, n))
}
