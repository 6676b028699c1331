// Words of 64 cases, and the least case that fails. The words are written by hand: bit n of a word is case n.
ghost use Rattle.std.specs.Prelude.{◌<◌, nat_eq};
ghost use Rattle.std.specs.Int.{bit_at};

use lola_alg::{AlgError, Algebra, low_op};
use lola_bits::{Op, Seq};
use lola_lanes::{Lanes, WordTrial, first_failing_case, free_word};
use std::test::Fail;

/// A question that fails where the bit at its place of the case's number is 1.
struct AtPlace {
    place: u32,
}

impl WordTrial for AtPlace {
    ghost fails = { λ t c. nat_eq (bit_at c t.place) 1 };

    ghost ready = { λ t. t.place < 64 };

    ghost full = { λ t. ⊥ };

    fn failing(&self, block: u64) -> Result<u64, AlgError> {
        Ok(free_word(self.place, block))
    }
}

#[test]
fn words_of_places(rt: HostRuntime) {
    assert_eq!(rt; free_word(0, 0), 0xAAAA_AAAA_AAAA_AAAA);
    assert_eq!(rt; free_word(1, 7), 0xCCCC_CCCC_CCCC_CCCC);
    assert_eq!(rt; free_word(2, 0), 0xF0F0_F0F0_F0F0_F0F0);
    assert_eq!(rt; free_word(3, 1), 0xFF00_FF00_FF00_FF00);
    assert_eq!(rt; free_word(4, 0), 0xFFFF_0000_FFFF_0000);
    assert_eq!(rt; free_word(5, 3), 0xFFFF_FFFF_0000_0000);
    assert_eq!(rt; free_word(6, 0), 0);
    assert_eq!(rt; free_word(6, 1), 0xFFFF_FFFF_FFFF_FFFF);
    assert_eq!(rt; free_word(6, 2), 0);
    assert_eq!(rt; free_word(7, 2), 0xFFFF_FFFF_FFFF_FFFF);
    assert_eq!(rt; free_word(7, 5), 0);
}

#[test]
fn constants_and_gates(rt: HostRuntime) {
    let mut lanes = Lanes;
    assert_eq!(rt; lanes.constant(true), 0xFFFF_FFFF_FFFF_FFFF);
    assert_eq!(rt; lanes.constant(false), 0);
    assert_eq!(rt; lanes.not(0xFF00_0000_0000_0001), 0x00FF_FFFF_FFFF_FFFE);
    match lanes.and(0xF0F0_0000_0000_0011, 0x3030_0000_0000_0001) {
        Ok(word) => assert_eq!(rt; word, 0x3030_0000_0000_0001),
        Err(_) => assert_eq!(rt; 0, 1),
    }
}

#[test]
fn the_least_case_that_fails(rt: HostRuntime) {
    assert_eq!(rt; first_failing_case(&AtPlace { place: 0 }, 4), Ok(Some(1)));
    assert_eq!(rt; first_failing_case(&AtPlace { place: 3 }, 4), Ok(Some(8)));
    assert_eq!(rt; first_failing_case(&AtPlace { place: 4 }, 4), Ok(None));
    assert_eq!(rt; first_failing_case(&AtPlace { place: 5 }, 6), Ok(Some(32)));
    assert_eq!(rt; first_failing_case(&AtPlace { place: 6 }, 6), Ok(None));
    assert_eq!(rt; first_failing_case(&AtPlace { place: 6 }, 7), Ok(Some(64)));
    assert_eq!(rt;
        first_failing_case(&AtPlace { place: 9 }, 10),
        Ok(Some(512))
    );
}

#[test]
fn a_sum_in_all_cases(rt: HostRuntime) -> Result<(), Fail> {
    let alloc = rt.alloc();
    let x = Seq::of(Vec::from_slice(alloc, &[free_word(0, 0), free_word(1, 0)])?);
    let y = Seq::of(Vec::from_slice(alloc, &[free_word(2, 0), free_word(3, 0)])?);
    // Case n adds n % 4 and n / 4 % 4: of 16 cases one after another, from case 0 up, the low bits of the sums are
    // 0101 1010 0101 1010, and the high bits 0011 0110 1100 1001.
    let expected = [0x5A5A_5A5A_5A5A_5A5A, 0x936C_936C_936C_936C];
    match low_op(alloc, &mut Lanes, Op::Add, &[x, y]) {
        Ok(sum) => assert_eq!(rt; sum.items(), expected.as_slice()),
        Err(_) => assert_eq!(rt; 0, 1),
    }
    Ok(())
}
