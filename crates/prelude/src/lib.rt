// The prelude: the eight bytes that begin a stream, and the verdict on them.
#![tactic(auto)]

ghost use Rattle.std.specs.Prelude.{◌≡◌, Result, Err};
ghost use Rattle.codec.specs.Codec.{refusal};
ghost use Rattle.prelude.specs.Prelude.{is_version, prelude_of};
ghost use Rattle.prelude.specs.declared.Stage.{Stage};

use refusal::Refusal;

// The bytes of a prelude.
const METADATA_PRELUDE_LEN: usize = 8;

// The least block that a prelude may announce.
const METADATA_FIXED_LEN: usize = 100;

// How far bytes have come: so many more are needed, or there is a block of this version and length.
#[derive(Clone, Copy)]
pub enum Stage {
    Needs(usize),
    Whole { version: u8, len: usize },
}

// The verdict on a prelude: the bytes missing, or 10 at place 0, 11 at 3, 12 at 4, or its version and block length. Bytes past the eighth are not looked at.
pub fn prelude(s: &[u8]) -> Result<Stage, Refusal>
    ensures { result ≡ prelude_of s.now }
{
    let n = s.len();
    if n < METADATA_PRELUDE_LEN {
        return Ok(Stage::Needs(METADATA_PRELUDE_LEN - n));
    }
    if !s.starts_with(b"DBN") {
        return refusal::refuse(refusal::MAGIC, 0);
    }
    let version = s[3];
    if !is_version(version) {
        return refusal::refuse(refusal::VERSION, 3);
    }
    let len = filled_numbers::u32_of(s, 4);
    if len < METADATA_FIXED_LEN {
        return refusal::refuse(refusal::BLOCK_LENGTH, 4);
    }
    Ok(Stage::Whole { version, len })
}

// Whether there is such a version: 1 to 4.
pub fn is_version(version: u8) -> bool
    ensures { result ≡ is_version version }
{
    (1..=4).contains(&version)
}
