// Numbers as digits in any radix. Where a function asks for a radix of 1 to 36, it is that there are 36 digits.
// Callers write the radix as a number, which the check sees at once: a type for it would be made at each call.
ghost use Rattle.std.specs.Prelude.{◌≡◌, ◌↔◌, ℕ, IsTrue, [], ◌∷◌, ◌++◌, ◌+◌, ◌*◌, ◌/◌, ◌%◌, ◌^◌, ◌≤◌, ◌<◌, length};
ghost use Rattle.std.specs.Prelude.{drop};
ghost use Rattle.text.specs.Text.{starts_with};
ghost use Rattle.text.specs.Digits as spec;

use crate::bytes::put_byte;
use fields::byte_at;

// A number that is taken apart into digits, the last first. Each asks for a radix to divide by.
pub trait InDigits: Copy {
    // the number itself
    ghost number: { Self → ℕ };

    // No digit stands before the last.
    fn is_one_digit(self, radix: u32) -> bool
        requires { 0 < radix }
        ensures { IsTrue result ↔ number self < radix };

    // The value of the last digit. It asks for a radix whose digits fit a byte.
    fn last_digit(self, radix: u32) -> u8
        requires { (0 < radix) × (radix ≤ 36) }
        ensures { result ≡ number self % radix };

    // The number that the digits before the last show.
    fn without_last_digit(self, radix: u32) -> Self
        requires { 0 < radix }
        ensures { number result ≡ number self / radix };
}

impl InDigits for u32 {
    ghost number = { λ n. n };

    fn is_one_digit(self, radix: u32) -> bool {
        self < radix
    }

    fn last_digit(self, radix: u32) -> u8 {
        (self % radix) as u8
    }

    fn without_last_digit(self, radix: u32) -> u32 {
        self / radix
    }
}

impl InDigits for u64 {
    ghost number = { λ n. n };

    fn is_one_digit(self, radix: u32) -> bool {
        self < u64::from(radix)
    }

    fn last_digit(self, radix: u32) -> u8 {
        (self % u64::from(radix)) as u8
    }

    fn without_last_digit(self, radix: u32) -> u64 {
        self / u64::from(radix)
    }
}

// 0 to 9, then the capitals from A on. It asks for a number that has a digit.
#[tactic(auto, unfolding(crate::specs::Digits::digit))]
pub fn digit(n: u8) -> u8
    requires { n < 36 }
    ensures { result ≡ spec.digit n }
{
    if n < 10 { b'0' + n } else { b'A' - 10 + n }
}

// The value of a byte as a digit.
#[tactic(auto, unfolding(crate::specs::Digits::digit_value))]
fn digit_value(byte: u8) -> u8
    ensures { result ≡ spec.digit_value byte }
{
    if byte < b'0' {
        return 0;
    }
    if byte <= b'9' {
        return byte - b'0';
    }
    byte - (b'A' - 10)
}

// The number that the bytes of a text from a place on, so many, show, worked from the last digit to the first. It asks
// that the number fits whatever the bytes are, the value of each at most 255, and promises how large it gets.
pub fn number(text: &[u8], at: usize, radix: u32, count: usize) -> u32
    requires { (at + count < 18_446_744_073_709_551_616) × (2 ≤ radix) × (255 * radix ^ count ≤ 4_294_967_295) }
    ensures { (result ≡ spec.value radix count (drop at text.now)) × (result < 255 * radix ^ count) }
{
    let mut value: u32 = 0;
    let mut weight: u32 = 1;
    for i in (0..count).rev() {
        value += digit_value(byte_at(text, at + i)) as u32 * weight;
        weight *= radix;
    }
    value
}

// A text begins with the last digits of a number, so many. The last is asked first: it tells most numbers apart.
#[tactic(auto, using(crate::proofs::Turns::other_digit, crate::proofs::Turns::same_digit, crate::proofs::Turns::none_other))]
pub fn shows_digits(text: &[u8], radix: u32, count: usize, n: u32) -> bool
    requires { (0 < radix) × (radix ≤ 36) }
    ensures { result ≡ starts_with (spec.digits radix count n) text.now }
{
    let mut rest = n;
    for i in (0..count).rev() {
        if byte_at(text, i) != digit((rest % radix) as u8) {
            return false;
        }
        rest /= radix;
    }
    true
}

// How many digits a number has without a leading zero, at most so many. It asks for a radix to divide by.
#[tactic(auto, using(crate::proofs::Turns::none_counted, crate::proofs::Turns::last_counted, crate::proofs::Turns::more_counted, crate::proofs::Turns::all_counted))]
pub fn digit_count<N: InDigits>(radix: u32, most: usize, n: N) -> usize
    requires { 0 < radix }
    ensures { result ≡ spec.digit_count radix most (N.number n) }
{
    let mut rest = n;
    for i in 0..most {
        if rest.is_one_digit(radix) {
            return i + 1;
        }
        rest = rest.without_last_digit(radix);
    }
    most
}

// Writes the last digits of a number, so many, at the front of a page. It asks for room, so that none is left out.
#[tactic(auto, using(crate::proofs::Turns::put_digit, crate::proofs::Turns::none_left))]
pub fn put_digits<N: InDigits>(page: &mut [u8], radix: u32, count: usize, n: N)
    requires { (0 < radix) × (radix ≤ 36) × (count ≤ length page.old) }
    ensures { page.new ≡ spec.digits radix count (N.number n) ++ drop count page.old }
{
    let mut rest = n;
    for i in (0..count).rev() {
        page[i] = digit(rest.last_digit(radix));
        rest = rest.without_last_digit(radix);
    }
}

// Writes a field at the front of a page: a number's digits, and the byte that closes it. It asks for room for both.
pub fn put_field(page: &mut [u8], radix: u32, count: usize, n: u32, close: u8)
    requires { (0 < radix) × (radix ≤ 36) × (count + 1 ≤ length page.old) }
    ensures { page.new
        ≡ (spec.digits radix count n ++ (close ∷ [])) ++ drop (count + 1) page.old }
{
    put_digits(page, radix, count, n);
    put_byte(&mut page[count..], close);
}
