// The C function of the prelude. Nothing here but a call of the layer.
#![tactic(auto)]

ghost use Rattle.std.specs.Prelude.{◌≡◌};
ghost use Rattle.prelude.specs.Prelude.{prelude_of, stage_number};
ghost use Rattle.c_prelude.specs.Numbers.{prelude_out};

use prelude::Stage;

// The verdict on a prelude: 10, 11, 12 with the place at 3, the rest of `out` as it was, or 0 with {missing, 0, 0, 0} below eight bytes and
// {0, version, block length, 0} from eight on.
pub fn dbn_prelude(s: &[u8], out: &mut [u64; 4]) -> u32
    ensures { (result ≡ stage_number (prelude_of s.now)) × (out.new ≡ prelude_out (prelude_of s.now) out.old) }
{
    match prelude::prelude(s) {
        Ok(Stage::Needs(n)) => {
            *out = [n as u64, 0, 0, 0];
            0
        }
        Ok(Stage::Whole { version, len }) => {
            *out = [0, version as u64, len as u64, 0];
            0
        }
        Err(e) => {
            out[3] = e.place as u64;
            e.number
        }
    }
}
