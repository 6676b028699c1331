ghost use Rattle.std.specs.Prelude.{◌≡◌, ◌≤◌, position};
ghost use Rattle.lola_bits.specs.Number.{bit_at};
ghost use Rattle.tab_tree.specs.Step.{fits, fits_place};

use tab_tree::Class;

/// A bit of a number, which is 0 past its top.
#[tactic(auto, using(crate::proofs::Patterns::no_bit))]
fn bit(number: u128, place: usize) -> u8
    ensures { result ≡ bit_at number place }
{
    if place < 128 {
        (number >> place as u32 & 1) as u8
    } else {
        0
    }
}

/// Whether a place of a pattern has a bit: `-` has both.
fn fits_place(place: u8, bit: u8) -> bool
    requires { bit ≤ 1 }
    ensures { result ≡ fits_place place bit }
{
    place == b'-' || place == b'0' + bit
}

/// Whether a word fits a pattern, whose first place is for the highest bit.
fn fits(pattern: &[u8], word: u128) -> bool
    ensures { result ≡ fits pattern.now word }
{
    for (number, place) in pattern.iter().enumerate() {
        if !fits_place(*place, bit(word, pattern.len() - 1 - number)) {
            return false;
        }
    }
    true
}

/// The number of the first class that a word fits.
pub fn class_number(classes: &[Class], word: u128) -> Option<usize>
    ensures { result ≡ position (λ class. fits class.pattern word) classes.now }
{
    classes
        .iter()
        .position(|class| fits(class.pattern.items(), word))
}
