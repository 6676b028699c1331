ghost use Rattle.std.specs.Prelude.{◌≡◌, ◌≤◌, ◌<◌, ◌+◌, ◌*◌, ℕ, true, length, suc, nat_eq};
ghost use Rattle.std.specs.List.{list_all};
ghost use Rattle.veri_read.specs.Tokens.{is_digit};
ghost use Rattle.veri_read.specs.Bits.{digit_count, digits_of, front_of, ends_with_mark, is_decimal, has_no_zeros, is_bit_name, number_of, is_one_above, follows, ends_run};
ghost use Rattle.veri_read.specs.Gaps.{IsGap, front_number};

/// How many digits stand at the end of a name.
fn digit_count(name: &[u8]) -> usize
    ensures count { result ≡ digit_count name.now }
    ensures within { result ≤ length name.now }
{
    let mut count = 0usize;
    for b in name {
        if b.is_ascii_digit() {
            count += 1;
        } else {
            count = 0;
        }
    }
    count
}

/// A name parted in front of the digits at its end.
fn parted(name: &[u8]) -> (&[u8], &[u8])
    ensures front { result.0.now ≡ front_of name.now }
    ensures digits { result.1.now ≡ digits_of name.now }
{
    let count = digit_count(name);
    name.split_at(name.len() - count)
}

/// Whether a `_` stands at the end.
fn ends_with_mark(front: &[u8]) -> bool
    ensures { result ≡ ends_with_mark front.now }
{
    let (_, last) = front.split_at(front.len().saturating_sub(1));
    last == b"_".as_slice()
}

/// Whether these bytes are digits.
fn are_digits(digits: &[u8]) -> bool
    ensures { result ≡ list_all is_digit digits.now }
{
    digits.iter().all(|b| b.is_ascii_digit())
}

/// Whether digits are those of a number without leading zeros.
fn is_decimal(digits: &[u8]) -> bool
    ensures { result ≡ is_decimal digits.now }
{
    are_digits(digits) && has_no_zeros(digits)
}

/// Whether digits are some, without leading zeros.
fn has_no_zeros(digits: &[u8]) -> bool
    ensures { result ≡ has_no_zeros digits.now }
{
    match digits {
        [] => false,
        [_] => true,
        [first, _, ..] => *first != b'0',
    }
}

/// Whether a name is that of a bit: a stem of at least one byte, `_`, and a number in decimal without leading
/// zeros.
pub(crate) fn is_bit_name(name: &[u8]) -> bool
    ensures { result ≡ is_bit_name name.now }
{
    let (front, digits) = parted(name);
    is_decimal(digits) && front.len() > 1 && ends_with_mark(front)
}

/// Whether a name ends with the number 0.
pub(crate) fn ends_run(name: &[u8]) -> bool
    ensures { result ≡ ends_run name.now }
{
    let (_, digits) = parted(name);
    digits == b"0".as_slice()
}

/// How far a number is above another.
#[derive(Clone, Copy)]
enum Gap {
    Below,
    Same,
    One,
    More,
}

/// How far the numbers are apart that have one digit more.
fn widened(gap: Gap, above: u8, below: u8) -> Gap
    requires above { above ≤ 9 }
    requires below { below ≤ 9 }
    ensures { (a b : ℕ) → IsGap gap a b → IsGap result (10 * a + above) (10 * b + below) }
{
    match gap {
        Gap::Below => Gap::Below,
        Gap::Same => {
            if above < below {
                Gap::Below
            } else if above == below {
                Gap::Same
            } else if above == below + 1 {
                Gap::One
            } else {
                Gap::More
            }
        }
        Gap::One => {
            if above == 0 && below == 9 {
                Gap::One
            } else {
                Gap::More
            }
        }
        Gap::More => Gap::More,
    }
}

/// The value of the digit at a place of digits that stand in the last of so many places.
fn digit_at(digits: &[u8], place: usize, places: usize) -> u8
    requires within { place < places }
    requires few { length digits.now ≤ places }
    requires digits { list_all is_digit digits.now ≡ true }
    ensures small { result ≤ 9 }
    ensures more { front_number (place + 1) places digits.now ≡ 10 * front_number place places digits.now + result }
{
    let left = places - digits.len();
    if place < left {
        0
    } else {
        digits[place - left] - b'0'
    }
}

/// Whether a number is one above another.
fn exceeds(above: &[u8], below: &[u8]) -> bool
    requires above { list_all is_digit above.now ≡ true }
    requires below { list_all is_digit below.now ≡ true }
    ensures { result ≡ nat_eq (number_of above.now) (suc (number_of below.now)) }
{
    let places = if above.len() < below.len() {
        below.len()
    } else {
        above.len()
    };
    let mut gap = Gap::Same;
    for place in 0..places {
        gap = widened(
            gap,
            digit_at(above, place, places),
            digit_at(below, place, places),
        );
    }
    match gap {
        Gap::One => true,
        _ => false,
    }
}

/// Whether digits spell the number above that of others.
fn is_one_above(above: &[u8], below: &[u8]) -> bool
    ensures { result ≡ is_one_above above.now below.now }
{
    is_decimal(above) && is_decimal(below) && exceeds(above, below)
}

/// Whether the second of two names is the next bit of a run behind the first: of the same stem, with the number
/// one less.
pub(crate) fn follows(above: &[u8], below: &[u8]) -> bool
    ensures { result ≡ follows above.now below.now }
{
    let (above_front, above_digits) = parted(above);
    let (below_front, below_digits) = parted(below);
    above_front == below_front && is_one_above(above_digits, below_digits)
}
