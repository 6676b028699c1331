ghost use Rattle.std.specs.Prelude.{◌≡◌, ◌↔◌, IsTrue};
ghost use Rattle.lola_bits.specs.Vector.{FitsWidth};

/// A bit vector: `value` is a number below 2 to `width`, and `width` is 1 to 128 bits.
#[derive(Clone, Copy, Debug, PartialEq, Eq)]
pub struct Bits {
    pub width: u32,
    pub value: u128,
}

/// Whether a width is 1 to 128 bits and a number is below 2 to it.
pub fn fits(width: u32, value: u128) -> bool
    ensures { IsTrue result ↔ FitsWidth width value }
{
    1 <= width && width <= 128 && (width == 128 || value < 1u128 << width)
}

impl Bits {
    /// The vector of a width in bits that has this value.
    pub fn new(width: u32, value: u128) -> Bits
        requires { FitsWidth width value }
        ensures { result ≡ record { width = width; value = value } }
    {
        Bits { width, value }
    }
}
