// Blocks, judged one after the other, and the bytes that they hold.
ghost use Rattle.std.specs.Prelude.{◌≡◌, ◌+◌, ◌*◌, ◌≤◌, ◌==◌, length};
ghost use Rattle.std.specs.List.{list_all};
ghost use Rattle.put.specs.Output.{Wrote};
ghost use Rattle.codec.specs.Telling.{passed};
ghost use Rattle.house_file.specs.House.{sound, filled, block_fault, file_fault, payload_of};
ghost use Rattle.house_file.specs.BlockLaws.{block_at, blocks_at};
ghost use Rattle.house_file.specs.PayloadLaws.{Sound};

use refusal::Refusal;

// Judges n blocks: the refusal of the first that something refuses.
pub(crate) fn judge(file: &[u8], n: usize) -> Result<(), Refusal>
    requires { (length file.now ≡ 512 * n) × (n ≤ 65536) }
    ensures { result ≡ passed (file_fault 0 (blocks_at n 0 file.now)) }
{
    for index in 0..n {
        judge_block(file, 512 * index, index, n - index == 1)?;
    }
    Ok(())
}

// Judges the block at a place, which is to have this index.
fn judge_block(file: &[u8], at: usize, index: usize, last: bool) -> Result<(), Refusal>
    requires { at + 512 ≤ length file.now }
    ensures { result ≡ passed (block_fault index last (block_at at file.now)) }
{
    if !is_sound(file, at) {
        return refusal::refuse(refusal::HOUSE_CHECK, 0);
    }
    if filled_numbers::u16_of(file, at) != index {
        return refusal::refuse(refusal::HOUSE_INDEX, 0);
    }
    if !is_filled(file, at, last) {
        return refusal::refuse(refusal::HOUSE_USED, 0);
    }
    Ok(())
}

// Whether its check words are those of the 254 words before them.
fn is_sound(file: &[u8], at: usize) -> bool
    requires { at + 512 ≤ length file.now }
    ensures { result ≡ sound (block_at at file.now) }
{
    let t = sums::sums_of(&file[at..at + 508]);
    filled_numbers::u16_of(file, at + 508) == t.a && filled_numbers::u16_of(file, at + 510) == t.b
}

// Whether it is full or, for the last one, has a used byte and zeros after the used ones.
fn is_filled(file: &[u8], at: usize, last: bool) -> bool
    requires { at + 512 ≤ length file.now }
    ensures { result ≡ filled last (block_at at file.now) }
{
    let used = filled_numbers::u16_of(file, at + 2);
    if last {
        if used < 1 {
            return false;
        }
        if 504 < used {
            return false;
        }
        return is_zeros(&file[at + 4 + used..at + 508]);
    }
    used == 504
}

// Whether there is nothing but zeros.
fn is_zeros(s: &[u8]) -> bool
    ensures { result ≡ list_all (λ x. x == 0) s.now }
{
    s.iter().all(|x| *x == 0)
}

// Puts the bytes that n blocks hold at the front of the store, and answers how many they are.
pub(crate) fn put_payload(store: &mut [u8], file: &[u8], n: usize) -> usize
    requires { Sound file.now n store.old }
    ensures { Wrote 0 (payload_of (blocks_at n 0 file.now)) store.old store.new result }
{
    let mut to = 0;
    for index in 0..n {
        let at = 512 * index;
        let used = filled_numbers::u16_of(file, at + 2);
        to = put::put_bytes(store, to, &file[at + 4..at + 4 + used]);
    }
    to
}
