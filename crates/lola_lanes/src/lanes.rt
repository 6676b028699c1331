ghost use Rattle.std.specs.Prelude.{◌≡◌, ◌<◌};
ghost use Rattle.lola_lanes.specs.Lanes.{lane_calls, lane_meaning, digit, IsWordOf};
ghost use Rattle.lola_lanes.specs.Law.{lane_law};
ghost use Rattle.lola_lanes.specs.Words.{word_of};

use lola_alg::{AlgError, Algebra};

/// The algebra of 64 cases at once: bit n of a word is the value in case n. It has no data, and takes no memory.
#[derive(Clone, Copy, Debug)]
pub struct Lanes;

impl Algebra for Lanes {
    type Bit = u64;

    type State = ();

    ghost state = { λ _. tt };

    ghost calls = { lane_calls };

    ghost meaning = { lane_meaning };

    fn constant(&mut self, value: bool) -> u64 {
        if value { u64::MAX } else { 0 }
    }

    fn not(&mut self, a: u64) -> u64 {
        !a
    }

    fn and(&mut self, a: u64, b: u64) -> Result<u64, AlgError> {
        Ok(a & b)
    }

    ghost law = { lane_law };
}

/// The word of a place in a block: six fixed ones for the lowest places, which change within a block.
fn place_word(place: u32, block: u64) -> u64
    requires { place < 64 }
    ensures { result ≡ word_of place block }
{
    match place {
        0 => 0xAAAA_AAAA_AAAA_AAAA,
        1 => 0xCCCC_CCCC_CCCC_CCCC,
        2 => 0xF0F0_F0F0_F0F0_F0F0,
        3 => 0xFF00_FF00_FF00_FF00,
        4 => 0xFFFF_0000_FFFF_0000,
        5 => 0xFFFF_FFFF_0000_0000,
        _ => {
            if (block >> (place - 6)) % 2 == 1 {
                u64::MAX
            } else {
                0
            }
        }
    }
}

/// The bit that has in each case of a block the bit at this place, counted from the lowest, of the case's number.
/// Cases are numbered from 0, 64 to a block.
pub fn free_word(place: u32, block: u64) -> u64
    requires { place < 64 }
    ensures { IsWordOf (digit place) block result }
{
    place_word(place, block)
}
