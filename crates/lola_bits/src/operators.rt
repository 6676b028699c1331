ghost use Rattle.std.specs.Prelude.{◌≡◌, ◌+◌, ◌-◌, ◌*◌, ◌/◌, ◌%◌, ◌^◌, ◌≤◌, ◌<◌, nat_eq, nat_lt, bit_and, bit_or, bit_xor};
ghost use Rattle.lola_bits.specs.Number.{bit_at, slice_of, joined, inverted, sum, difference, moved_up, moved_down, moved_filled, turned};
ghost use Rattle.lola_bits.specs.Vector.{FitsWidth};

use crate::vector::Bits;

/// The number whose lowest `width` bits are 1 and whose others are 0.
#[tactic(auto, using(crate::proofs::Numbers::ones_moved))]
fn mask(width: u32) -> u128
    requires positive { 1 ≤ width }
    requires at_most { width ≤ 128 }
    ensures { result ≡ 2 ^ width - 1 }
{
    u128::MAX >> (128 - width)
}

/// The vector of the lowest `width` bits of a number.
#[tactic(auto, using(std::proofs::lemmas::Nat::and_mask))]
fn cut(width: u32, value: u128) -> Bits
    requires positive { 1 ≤ width }
    requires at_most { width ≤ 128 }
    ensures value { result ≡ record { width = width; value = value % 2 ^ width } }
    ensures fits { FitsWidth result.width result.value }
{
    Bits {
        width,
        value: value & mask(width),
    }
}

impl Bits {
    /// Whether bit `n` is 1: bit 0 is the lowest and bit `width - 1` the top one. Takes no memory.
    pub fn bit(self, n: u32) -> bool
        requires fits { FitsWidth self.width self.value }
        requires within { n < self.width }
        ensures { result ≡ nat_eq (bit_at self.value n) 1 }
    {
        self.value >> n & 1 == 1
    }

    /// The bits from number `low` up to number `high`, both taken in, as a vector of
    /// `high - low + 1` bits: bit `low` becomes bit 0. Takes no memory.
    pub fn slice(self, high: u32, low: u32) -> Bits
        requires fits { FitsWidth self.width self.value }
        requires in_order { low ≤ high }
        requires within { high < self.width }
        ensures value { result ≡ record { width = high - low + 1; value = slice_of self.value high low } }
        ensures fits { FitsWidth result.width result.value }
    {
        cut(high - low + 1, self.value >> low)
    }

    /// This vector with the bits of `low` below it: the widths are added, and come to at most 128
    /// bits. Takes no memory.
    #[tactic(auto, using(crate::proofs::Numbers::joined_is, crate::proofs::Numbers::joined_fits))]
    pub fn concat(self, low: Bits) -> Bits
        requires fits { FitsWidth self.width self.value }
        requires low_fits { FitsWidth low.width low.value }
        requires at_most { self.width + low.width ≤ 128 }
        ensures value { result ≡ record { width = self.width + low.width; value = joined self.value low.width low.value } }
        ensures fits { FitsWidth result.width result.value }
    {
        Bits {
            width: self.width + low.width,
            value: self.value << low.width | low.value,
        }
    }

    /// The vector of the same width with each bit the other way. Takes no memory.
    pub fn not(self) -> Bits
        requires fits { FitsWidth self.width self.value }
        ensures value { result ≡ record { width = self.width; value = inverted self.width self.value } }
        ensures fits { FitsWidth result.width result.value }
    {
        Bits {
            width: self.width,
            value: mask(self.width) - self.value,
        }
    }

    /// The vector whose bits are 1 where they are 1 in both vectors, which are of one width. Takes
    /// no memory.
    pub fn and(self, other: Bits) -> Bits
        requires fits { FitsWidth self.width self.value }
        requires other_fits { FitsWidth other.width other.value }
        requires same { other.width ≡ self.width }
        ensures value { result ≡ record { width = self.width; value = bit_and self.value other.value } }
        ensures fits { FitsWidth result.width result.value }
    {
        Bits {
            width: self.width,
            value: self.value & other.value,
        }
    }

    /// The vector whose bits are 1 where they are 1 in one of two vectors of one width, or in both.
    /// Takes no memory.
    #[tactic(auto, using(crate::proofs::Numbers::or_fits))]
    pub fn or(self, other: Bits) -> Bits
        requires fits { FitsWidth self.width self.value }
        requires other_fits { FitsWidth other.width other.value }
        requires same { other.width ≡ self.width }
        ensures value { result ≡ record { width = self.width; value = bit_or self.value other.value } }
        ensures fits { FitsWidth result.width result.value }
    {
        Bits {
            width: self.width,
            value: self.value | other.value,
        }
    }

    /// The vector whose bits are 1 where they are 1 in just one of two vectors of one width. Takes
    /// no memory.
    #[tactic(auto, using(crate::proofs::Numbers::xor_fits))]
    pub fn xor(self, other: Bits) -> Bits
        requires fits { FitsWidth self.width self.value }
        requires other_fits { FitsWidth other.width other.value }
        requires same { other.width ≡ self.width }
        ensures value { result ≡ record { width = self.width; value = bit_xor self.value other.value } }
        ensures fits { FitsWidth result.width result.value }
    {
        Bits {
            width: self.width,
            value: self.value ^ other.value,
        }
    }

    /// The sum of two numbers of one width, modulo 2 to the width: the carry out of the top bit is
    /// dropped. Takes no memory.
    #[tactic(auto, using(crate::proofs::Numbers::cut_after_128))]
    pub fn add(self, other: Bits) -> Bits
        requires fits { FitsWidth self.width self.value }
        requires other_fits { FitsWidth other.width other.value }
        requires same { other.width ≡ self.width }
        ensures value { result ≡ record { width = self.width; value = sum self.width self.value other.value } }
        ensures fits { FitsWidth result.width result.value }
    {
        cut(self.width, self.value.wrapping_add(other.value))
    }

    /// This number less another of the same width, modulo 2 to the width: where the other is
    /// greater, the difference goes round. Takes no memory.
    #[tactic(auto, using(crate::proofs::Numbers::difference_after_128))]
    pub fn sub(self, other: Bits) -> Bits
        requires fits { FitsWidth self.width self.value }
        requires other_fits { FitsWidth other.width other.value }
        requires same { other.width ≡ self.width }
        ensures value { result ≡ record { width = self.width; value = difference self.width self.value other.value } }
        ensures fits { FitsWidth result.width result.value }
    {
        cut(self.width, self.value.wrapping_sub(other.value))
    }

    /// Whether this number is below another of the same width. No bit is a sign. Takes no memory.
    pub fn less(self, other: Bits) -> bool
        requires fits { FitsWidth self.width self.value }
        requires other_fits { FitsWidth other.width other.value }
        requires same { other.width ≡ self.width }
        ensures { result ≡ nat_lt self.value other.value }
    {
        self.value < other.value
    }

    /// The bits moved up by as many places as the number `by` says, with 0 moved in from below; what
    /// is moved out at the top is dropped. `by` may be any number of any width: a move by the width
    /// or more leaves 0. Takes no memory.
    #[tactic(auto, using(crate::proofs::Numbers::cut_after_128, crate::proofs::Numbers::all_moved_up))]
    pub fn shl(self, by: Bits) -> Bits
        requires fits { FitsWidth self.width self.value }
        requires by_fits { FitsWidth by.width by.value }
        ensures value { result ≡ record { width = self.width; value = moved_up self.width self.value by.value } }
        ensures fits { FitsWidth result.width result.value }
    {
        if by.value < self.width as u128 {
            cut(self.width, self.value << by.value as u32)
        } else {
            Bits {
                width: self.width,
                value: 0,
            }
        }
    }

    /// The bits moved down by as many places as the number `by` says, with 0 moved in from above;
    /// what is moved out at the bottom is dropped. `by` may be any number of any width: a move by
    /// the width or more leaves 0. Takes no memory.
    #[tactic(auto, using(crate::proofs::Numbers::all_moved_down))]
    pub fn shr(self, by: Bits) -> Bits
        requires fits { FitsWidth self.width self.value }
        requires by_fits { FitsWidth by.width by.value }
        ensures value { result ≡ record { width = self.width; value = moved_down self.value by.value } }
        ensures fits { FitsWidth result.width result.value }
    {
        let value = if by.value < self.width as u128 {
            self.value >> by.value as u32
        } else {
            0
        };
        Bits {
            width: self.width,
            value,
        }
    }

    /// The number whose lowest `width` bits are copies of the vector's top bit.
    #[tactic(auto, using(crate::proofs::Numbers::top_is_one))]
    fn top_copies(self) -> u128
        requires fits { FitsWidth self.width self.value }
        ensures { result ≡ self.value / 2 ^ (self.width - 1) * (2 ^ self.width - 1) }
    {
        if self.bit(self.width - 1) {
            mask(self.width)
        } else {
            0
        }
    }

    /// The bits moved down by as many places as the number `by` says, with copies of the top bit
    /// moved in from above, so that a number with sign is divided and rounded down. `by` may be any
    /// number of any width: a move by the width or more leaves copies of the top bit alone. Takes no
    /// memory.
    #[tactic(auto, using(crate::proofs::Numbers::filled_is, crate::proofs::Numbers::filled_below, crate::proofs::Numbers::all_filled))]
    pub fn asr(self, by: Bits) -> Bits
        requires fits { FitsWidth self.width self.value }
        requires by_fits { FitsWidth by.width by.value }
        ensures value { result ≡ record { width = self.width; value = moved_filled self.width self.value by.value } }
        ensures fits { FitsWidth result.width result.value }
    {
        let copies = self.top_copies();
        let value = if by.value < self.width as u128 {
            let places = by.value as u32;
            (self.value >> places) + (copies - (copies >> places))
        } else {
            copies
        };
        Bits {
            width: self.width,
            value,
        }
    }

    /// The bits turned down by as many places as the number `by` says, modulo the vector's width:
    /// what is moved out at the bottom comes in at the top. `by` may be any number of any width.
    /// Takes no memory.
    #[tactic(auto, using(crate::proofs::Numbers::turned_by_none, crate::proofs::Numbers::turned_slices))]
    pub fn ror(self, by: Bits) -> Bits
        requires fits { FitsWidth self.width self.value }
        requires by_fits { FitsWidth by.width by.value }
        ensures value { result ≡ record { width = self.width; value = turned self.width self.value by.value } }
        ensures fits { FitsWidth result.width result.value }
    {
        let places = (by.value % self.width as u128) as u32;
        if places == 0 {
            self
        } else {
            self.slice(places - 1, 0)
                .concat(self.slice(self.width - 1, places))
        }
    }
}
